ghost use Rattle.std.specs.Prelude.{◌≡◌, IfOk};

use crate::annotation::Note;
use crate::copies::Copied;
use crate::frame::Frame;
use crate::instruction::Insn;
use crate::list::{Bytes, Seq};
use crate::memory::Memory;

/// An attribute (JVMS 4.7): the index of its name, and its content.
#[derive(Drop)]
#[cycle(attribute)]
pub struct Attr {
    pub name: u16,
    pub body: Body,
}

/// The content of an attribute. One that isn't known in its place is carried as bytes.
#[derive(Drop)]
#[cycle(attribute)]
pub enum Body {
    /// Code (JVMS 4.7.3).
    Code(Code),
    /// LineNumberTable (JVMS 4.7.12): the instruction numbers where lines begin, with the lines.
    Lines(Seq<(u32, u16)>),
    /// StackMapTable (JVMS 4.7.4).
    Frames(Seq<Frame>),
    /// SourceFile (JVMS 4.7.10): the index of the file's name.
    Source(u16),
    /// ConstantValue (JVMS 4.7.2): the index of the value.
    Value(u16),
    /// RuntimeVisibleAnnotations or RuntimeInvisibleAnnotations (JVMS 4.7.16, 4.7.17).
    Notes(Seq<Note>),
    Raw(Bytes),
}

/// The code of a method (JVMS 4.7.3). All places in it are instruction numbers.
#[derive(Drop)]
#[cycle(attribute)]
pub struct Code {
    pub max_stack: u16,
    pub max_locals: u16,
    pub insns: Seq<Insn>,
    pub rows: Seq<Row>,
    pub attrs: Seq<Attr>,
}

/// A row of the exception table (JVMS 4.7.3): the first instruction that it covers, the first
/// behind them, the handler, and the index of the class that is caught, or 0 for every class.
#[derive(Clone, Copy)]
pub struct Row {
    pub start: u32,
    pub end: u32,
    pub handler: u32,
    pub catch: u16,
}

#[cycle(attribute_copy)]
fn copy_attrs(attrs: &Seq<Attr>) -> Result<Seq<Attr>, Memory>
    ensures { IfOk result (λ c. c ≡ attrs.now) }
{
    let mut copy = attrs.empty();
    for attr in attrs.as_slice() {
        copy.push(attr.copy()?)?;
    }
    Ok(copy)
}

impl Attr {
    /// An equal value.
    #[cycle(attribute_copy)]
    pub fn copy(&self) -> Result<Attr, Memory>
        ensures { IfOk result (λ c. c ≡ self.now) }
    {
        Ok(Attr {
            name: self.name,
            body: self.body.copy()?,
        })
    }
}

impl Copied for Attr {
    fn copied(&self) -> Result<Attr, Memory> {
        self.copy()
    }
}

impl Body {
    /// An equal value.
    #[cycle(attribute_copy)]
    pub fn copy(&self) -> Result<Body, Memory>
        ensures { IfOk result (λ c. c ≡ self.now) }
    {
        match self {
            Body::Code(code) => Ok(Body::Code(code.copy()?)),
            Body::Lines(lines) => Ok(Body::Lines(lines.copy()?)),
            Body::Frames(frames) => Ok(Body::Frames(frames.copy()?)),
            Body::Source(name) => Ok(Body::Source(*name)),
            Body::Value(value) => Ok(Body::Value(*value)),
            Body::Notes(notes) => Ok(Body::Notes(notes.copy()?)),
            Body::Raw(bytes) => Ok(Body::Raw(bytes.copy()?)),
        }
    }
}

impl Code {
    /// An equal value.
    #[cycle(attribute_copy)]
    pub fn copy(&self) -> Result<Code, Memory>
        ensures { IfOk result (λ c. c ≡ self.now) }
    {
        Ok(Code {
            max_stack: self.max_stack,
            max_locals: self.max_locals,
            insns: self.insns.copy()?,
            rows: self.rows.copy()?,
            attrs: copy_attrs(&self.attrs)?,
        })
    }
}

impl Copied for Row {
    fn copied(&self) -> Result<Row, Memory> {
        Ok(*self)
    }
}
