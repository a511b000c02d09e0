//! What native methods answer, how they read their arguments, and how the heap does what they say.
#![tactic(auto)]

mod changing;
mod deed;
mod giving;
mod known;
mod performing;
mod reading;
mod units;

pub use deed::{Change, Deed};
pub use giving::{gives_bool, makes_text, units_of, word};
pub use known::Known;
pub use performing::{NativeEnd, perform};
pub use reading::{
    int, ints, is_ref_to, long, longs, needed, needed_number, object, place, receiver,
    receiver_int, receiver_value, text, this, this_int, this_int_value, this_int_values, this_ints,
    this_long, this_value, this_value_int, this_values, value, value_object, values,
};
pub use units::{bool_units, char_units, int_units, is_true, long_units, minus, plus, times};
