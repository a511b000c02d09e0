ghost use Rattle.std.specs.Prelude.{◌≡◌, IfOk};

use crate::copies::Copied;
use crate::list::Seq;
use crate::memory::Memory;

/// A stated frame (JVMS 4.7.4), at the number of the instruction that it stands for.
#[derive(Drop)]
pub struct Frame {
    pub at: u32,
    pub shape: Shape,
}

/// How a frame differs from the one before it. A flag says that the longer form was used, which has
/// two bytes for the offset.
#[derive(Drop)]
pub enum Shape {
    /// The same locals and no stack: types 0 to 63, or 251.
    Same(bool),
    /// The same locals and one stack item: types 64 to 127, or 247.
    One(bool, VItem),
    /// So many locals fewer, 1 to 3, and no stack: types 248 to 250.
    Chop(u8),
    /// These locals more, one to three, and no stack: types 252 to 254.
    Append(Seq<VItem>),
    /// All locals and the whole stack: type 255.
    Full(Seq<VItem>, Seq<VItem>),
}

/// A verification type (JVMS 4.7.4) without the floats.
#[derive(Clone, Copy)]
pub enum VItem {
    Top,
    Integer,
    Long,
    Null,
    UninitializedThis,
    /// An object of the class at this index of the constant pool.
    Object(u16),
    /// What the `new` at this instruction number made.
    Uninitialized(u32),
}

impl Frame {
    /// An equal value.
    pub fn copy(&self) -> Result<Frame, Memory>
        ensures { IfOk result (λ c. c ≡ self.now) }
    {
        Ok(Frame {
            at: self.at,
            shape: self.shape.copy()?,
        })
    }
}

impl Copied for Frame {
    fn copied(&self) -> Result<Frame, Memory> {
        self.copy()
    }
}

impl Shape {
    /// An equal value.
    pub fn copy(&self) -> Result<Shape, Memory>
        ensures { IfOk result (λ c. c ≡ self.now) }
    {
        match self {
            Shape::Same(extended) => Ok(Shape::Same(*extended)),
            Shape::One(extended, item) => Ok(Shape::One(*extended, *item)),
            Shape::Chop(count) => Ok(Shape::Chop(*count)),
            Shape::Append(items) => Ok(Shape::Append(items.copy()?)),
            Shape::Full(locals, stack) => Ok(Shape::Full(locals.copy()?, stack.copy()?)),
        }
    }
}

impl Copied for VItem {
    fn copied(&self) -> Result<VItem, Memory> {
        Ok(*self)
    }
}
