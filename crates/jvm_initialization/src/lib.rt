//! What a class needs before its use, and its begin (JVMS 5.5), over frames and a world.
#![tactic(auto)]

mod beginning;
mod constants;
mod initializer;
mod members;
mod need;
mod ready;
mod states;

pub use beginning::begin;
pub use constants::number_of;
pub use members::is_initializer;
pub use need::{Need, need_for};
pub use ready::{Readied, make_ready};
