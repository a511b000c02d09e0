//! An object is thrown (JVMS 2.10): which handler of a method catches it, by class numbers; a
//! handler is entered, or the frame is popped.
#![tactic(auto)]

mod leaving;
mod row;
mod search;
mod searching;
mod thrown;
mod turn;
mod unwinding;

pub use leaving::is_awaited;
pub use row::{Catch, CatchRow, catch_named, catch_rows};
pub use search::find_handler;
pub use thrown::{Thrown, class_of, thrown_at};
pub use turn::Turn;
pub use unwinding::{Handlers, unwind};
