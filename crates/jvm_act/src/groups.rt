//! Whose rows an instruction has, and what of it they take.

ghost use Rattle.std.specs.Prelude.{◌≡◌};
ghost use Rattle.jvm_act.specs.Groups.{IsGroupOf};
ghost use Rattle.jvm_act.specs.declared.groups.CallUse.TheVariants as call;
ghost use Rattle.jvm_act.specs.declared.groups.ClassOp.TheVariants as class;
ghost use Rattle.jvm_act.specs.declared.groups.ElementOp.TheVariants as taking;
ghost use Rattle.jvm_act.specs.declared.groups.FrameOp.TheVariants as frame;
ghost use Rattle.jvm_act.specs.declared.groups.Group.TheVariants as group;
ghost use Rattle.jvm_act.specs.declared.groups.MemberOp.TheVariants as member;

use jvm_members::Access;
use jvm_receivers::Invocation;
use jvm_state::Op;
use program_rules::Element;

/// A switch of the code by its number.
#[derive(Clone, Copy)]
pub enum SwitchOp {
    Table(u32),
    Lookup(u32),
}

/// The element of an array is loaded or stored.
#[derive(Clone, Copy)]
pub enum ElementOp {
    Load(Element),
    Store(Element),
}

/// What asks an object alone: the length of an array, `athrow`, monitors.
#[derive(Clone, Copy)]
pub enum ObjectOp {
    Length,
    Throw,
    Enter,
    Exit,
}

/// What an instruction does with the class that it names.
#[derive(Clone, Copy)]
pub enum ClassUse {
    /// `ldc`.
    Load,
    /// `anewarray`.
    MakeArray,
    /// `multianewarray` of so many dimensions.
    MakeArrays(u8),
    /// `checkcast`.
    Cast,
    /// `instanceof`.
    Test,
}

/// `ldc` of the text at an index; `newarray` of elements by their number; the use of the class at
/// an index.
#[derive(Clone, Copy)]
pub enum ClassOp {
    Text(u32),
    Primitives(u8),
    Use(ClassUse, u32),
}

/// What leaves the running frame where it is, or goes on in it.
#[derive(Clone, Copy)]
pub enum FrameOp {
    Alone,
    Switch(SwitchOp),
    Element(ElementOp),
    Object(ObjectOp),
    Class(ClassOp),
    Unlinked,
}

/// What an instruction does with the field that it names: one of a class, or one of an object.
#[derive(Clone, Copy)]
pub enum FieldUse {
    Static(Access),
    Object(Access),
}

/// The use of the field at an index; `new` of the class at an index.
#[derive(Clone, Copy)]
pub enum MemberOp {
    Field(FieldUse, u32),
    New(u32),
}

/// How a method is called.
#[derive(Clone, Copy)]
pub enum CallUse {
    /// `invokestatic`.
    Static,
    /// On an object.
    On(Invocation),
}

/// Returns.
#[derive(Clone, Copy)]
pub enum ReturnOp {
    Int,
    Long,
    Reference,
    Plain,
}

/// Whose row an instruction has.
#[derive(Clone, Copy)]
pub enum Group {
    Frame(FrameOp),
    Member(MemberOp),
    /// The method at an index is called.
    Call(CallUse, u32),
    Return(ReturnOp),
}

fn switch(op: SwitchOp) -> Group
    ensures { result ≡ group.Frame (frame.Switch op) }
{
    Group::Frame(FrameOp::Switch(op))
}

fn load(element: Element) -> Group
    ensures { result ≡ group.Frame (frame.Element (taking.Load element)) }
{
    Group::Frame(FrameOp::Element(ElementOp::Load(element)))
}

fn store(element: Element) -> Group
    ensures { result ≡ group.Frame (frame.Element (taking.Store element)) }
{
    Group::Frame(FrameOp::Element(ElementOp::Store(element)))
}

fn object(op: ObjectOp) -> Group
    ensures { result ≡ group.Frame (frame.Object op) }
{
    Group::Frame(FrameOp::Object(op))
}

fn class(op: ClassOp) -> Group
    ensures { result ≡ group.Frame (frame.Class op) }
{
    Group::Frame(FrameOp::Class(op))
}

fn field(how: FieldUse, index: u32) -> Group
    ensures { result ≡ group.Member (member.Field how index) }
{
    Group::Member(MemberOp::Field(how, index))
}

fn class_use(how: ClassUse, index: u32) -> Group
    ensures { result ≡ group.Frame (frame.Class (class.Use how index)) }
{
    Group::Frame(FrameOp::Class(ClassOp::Use(how, index)))
}

fn call_on(how: Invocation, index: u32) -> Group
    ensures { result ≡ group.Call (call.On how) index }
{
    Group::Call(CallUse::On(how), index)
}

/// Whose row an instruction has.
#[tactic(auto, unfolding(jvm_state::specs::Ops::instruction_of))]
#[inline(always)]
pub fn group_of(op: Op) -> Group
    ensures { IsGroupOf op result }
{
    match op {
        Op::TextConstant(n) => class(ClassOp::Text(n)),
        Op::ClassConstant(n) => class_use(ClassUse::Load, n),
        Op::IntArrayLoad => load(Element::IntElement),
        Op::LongArrayLoad => load(Element::LongElement),
        Op::ReferenceArrayLoad => load(Element::ReferenceElement),
        Op::ByteArrayLoad => load(Element::ByteElement),
        Op::CharArrayLoad => load(Element::CharElement),
        Op::ShortArrayLoad => load(Element::ShortElement),
        Op::IntArrayStore => store(Element::IntElement),
        Op::LongArrayStore => store(Element::LongElement),
        Op::ReferenceArrayStore => store(Element::ReferenceElement),
        Op::ByteArrayStore => store(Element::ByteElement),
        Op::CharArrayStore => store(Element::CharElement),
        Op::ShortArrayStore => store(Element::ShortElement),
        Op::TableSwitch(n) => switch(SwitchOp::Table(n)),
        Op::LookupSwitch(n) => switch(SwitchOp::Lookup(n)),
        Op::IntReturn => Group::Return(ReturnOp::Int),
        Op::LongReturn => Group::Return(ReturnOp::Long),
        Op::ReferenceReturn => Group::Return(ReturnOp::Reference),
        Op::PlainReturn => Group::Return(ReturnOp::Plain),
        Op::GetStatic(n) => field(FieldUse::Static(Access::Get), n),
        Op::PutStatic(n) => field(FieldUse::Static(Access::Put), n),
        Op::GetField(n) => field(FieldUse::Object(Access::Get), n),
        Op::PutField(n) => field(FieldUse::Object(Access::Put), n),
        Op::InvokeVirtual(n) => call_on(Invocation::Virtual, n),
        Op::InvokeInterface(n) => call_on(Invocation::Interface, n),
        Op::InvokeSpecial(n) => call_on(Invocation::Special, n),
        Op::InvokeStatic(n) => Group::Call(CallUse::Static, n),
        Op::New(n) => Group::Member(MemberOp::New(n)),
        Op::NewArray(n) => class(ClassOp::Primitives(n)),
        Op::NewReferenceArray(n) => class_use(ClassUse::MakeArray, n),
        Op::NewMultiArray(k, n) => class_use(ClassUse::MakeArrays(k), n),
        Op::ArrayLength => object(ObjectOp::Length),
        Op::Throw => object(ObjectOp::Throw),
        Op::CheckCast(n) => class_use(ClassUse::Cast, n),
        Op::InstanceOf(n) => class_use(ClassUse::Test, n),
        Op::MonitorEnter => object(ObjectOp::Enter),
        Op::MonitorExit => object(ObjectOp::Exit),
        Op::Unlinked => Group::Frame(FrameOp::Unlinked),
        _ => Group::Frame(FrameOp::Alone),
    }
}
