//! What a row that calls a method comes to.

use jvm_frames::Args;
use jvm_link::Site;
use jvm_unwind::Turn;

/// What a row that calls a method comes to.
#[derive(Clone, Copy)]
pub enum Invoked {
    /// The row is done.
    Turned(Turn),
    /// This static method is left to be called, once its class is initialised.
    Readies(Site),
    /// This native method is left to be called with the arguments on the stack.
    Native(Site, Args),
    /// The array that is the only argument on the stack is left to be copied (JLS 10.7).
    Copies(Args),
}
