//! A method that runs.

use class_model::ClassId;

/// A method that runs, by the number of its class and its place there, and the instruction that it
/// stands at (JVMS 2.6). Its slots in the store are its locals, from `base` up to `floor`, and then
/// as many words as its stack may have, `top`, of which the lowest `sp` are in use.
#[derive(Clone, Copy)]
pub struct Frame {
    pub class: ClassId,
    pub method: u32,
    pub at: usize,
    pub base: usize,
    pub floor: usize,
    pub sp: usize,
    pub top: usize,
}
