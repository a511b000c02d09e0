//! Numbers and bytes at a place in a file: a cursor that reads them, and calls that write them.
#![tactic(auto)]

mod cursor;
mod put;

pub use cursor::{Cursor, Truncated};
pub use put::{put_u1, put_u2, put_u4, put_u8};
