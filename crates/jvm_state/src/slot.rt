//! A place of the store.

/// A local or a word of an operand stack (JVMS 2.6.1, 2.6.2). A local that was never set is unset,
/// and so is the second word of a long.
#[derive(Clone, Copy)]
pub enum Slot {
    Unset,
    Int(i32),
    Long(i64),
    /// A reference: the number of an allocation, counted from 1.
    Ref(u32),
    Null,
}
