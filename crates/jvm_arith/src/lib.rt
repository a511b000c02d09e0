//! The arithmetic of ints and longs, and the narrowing of ints to small kinds (JVMS 2.11.3, 6.5).
#![tactic(auto)]

mod int;
mod laws;
mod long;
mod narrowing;

pub use int::{int_neg, int_op, int_shift};
pub use laws::{division_rounds_towards_zero, edges};
pub use long::{long_compare, long_neg, long_op, long_shift, long_to_int};
pub use narrowing::{low_byte, low_char, low_short, narrow};
