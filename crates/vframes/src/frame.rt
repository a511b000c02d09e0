//! The types of a frame.

use crate::slot_type::SlotType;
use crate::stack::Stack;

/// The types of a frame: of the method's locals, where a long is followed by Top, and of its stack.
#[derive(Drop)]
pub struct Frame {
    pub locals: Vec<SlotType>,
    pub stack: Stack,
    /// `this` isn't initialised.
    pub flag: bool,
}
