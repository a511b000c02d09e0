//! What a use of a member comes to: resolution, and selection (JVMS 6.5).

ghost use Rattle.std.specs.Prelude.{◌≡◌, ◌<◌, true, length, IfOk};
ghost use Rattle.jvm_link.specs.Answers.{HasCallee};

use class_family::superclass;
use class_link::names::is_array_name;
use class_link::{Entry, FieldRef, Instruction, LinkedBody, LinkedClass, LinkedMethod, MethodRef};
use class_model::{ClassId, Memory, Name, flags};
use class_table::{Consulted, Program};
use jvm_link::{
    Callee, Search, Site, resolve_class, resolve_field, resolve_method, select_named,
    select_virtual,
};
use program_rules::Fault;

/// What a use comes to: a member of this class, an array's own `clone`, or what is thrown. Nothing,
/// where the instruction uses no member.
#[derive(Clone, Copy)]
pub enum End {
    Member(ClassId),
    Clone,
    Thrown(Fault),
    Nothing,
}

/// How a method is called.
#[derive(Clone, Copy)]
enum Call {
    Static,
    Special,
    Virtual,
    Interface,
}

// What is selected of a method, or thrown.
type Selected = Result<Result<Callee, Fault>, Memory>;

// The class that a name stands for.
fn class_of(program: &Program, name: &Name) -> Result<Result<ClassId, Fault>, Memory>
    ensures { IfOk result (λ a. IfOk a (λ id. id.0 < length program.now)) }
{
    let alloc = name.allocator();
    let mut seen = Consulted::new(alloc, program)?;
    let answer = resolve_class(alloc, program, &mut seen, name)?;
    Ok(answer)
}

fn method_at(program: &Program, site: Site) -> Option<&LinkedMethod> {
    program.get(site.class)?.linked().methods.get(site.place)
}

// Bit 3 is ACC_STATIC (JVMS 4.6).
fn is_static(program: &Program, site: Site) -> bool {
    match method_at(program, site) {
        Some(method) => flags::is_static(method.flags),
        None => false,
    }
}

// Whether a method is static where it has to be, and isn't where not.
fn fits(program: &Program, callee: Callee, wants_static: bool) -> bool
    ensures { result ≡ true → HasCallee program.now callee }
{
    match callee {
        Callee::Method(site) => {
            (site.class.0 as usize) < program.len() && is_static(program, site) == wants_static
        }
        Callee::ArrayClone => !wants_static,
    }
}

// What a call of a method comes to: one without a body is AbstractMethodError.
fn body_end(program: &Program, site: Site) -> End {
    match method_at(program, site) {
        Some(method) => match method.body {
            LinkedBody::Absent => End::Thrown(Fault::AbstractMethodError),
            _ => End::Member(site.class),
        },
        None => End::Nothing,
    }
}

fn selected_end(program: &Program, selected: Result<Callee, Fault>) -> End {
    match selected {
        Ok(Callee::Method(site)) => body_end(program, site),
        Ok(Callee::ArrayClone) => End::Clone,
        Err(fault) => End::Thrown(fault),
    }
}

// Whether `invokespecial` calls the method itself: an `<init>`, or a method of an interface.
fn is_itself(reference: &MethodRef) -> bool {
    match reference.name.as_slice() {
        [unit, ..] => reference.interface || *unit == b'<' as u16,
        [] => false,
    }
}

// What `invokespecial` selects in a caller's class: the method itself, or what the superclass has.
fn select_special(
    program: &Program,
    searching: &mut Search,
    reference: &MethodRef,
    callee: Callee,
    caller: ClassId,
) -> Selected
    requires { caller.0 < length program.now }
{
    if is_itself(reference) {
        return Ok(Ok(callee));
    }
    match superclass(program, caller) {
        Some(up) => select_named(program, searching, up, false, reference),
        None => Ok(Ok(callee)),
    }
}

// What is selected on an object of this class, or an array of it, or in a caller of this class.
fn select(
    program: &Program,
    searching: &mut Search,
    call: Call,
    reference: &MethodRef,
    callee: Callee,
    id: ClassId,
    array: bool,
) -> Selected
    requires callee { HasCallee program.now callee }
    requires class { id.0 < length program.now }
{
    match call {
        Call::Static => Ok(Ok(callee)),
        Call::Special => select_special(program, searching, reference, callee, id),
        Call::Virtual => select_virtual(program, searching, id, array, reference, callee),
        Call::Interface => select_named(program, searching, id, array, reference),
    }
}

// What a call of a resolved method comes to.
fn callee_end(
    program: &Program,
    searching: &mut Search,
    call: Call,
    reference: &MethodRef,
    callee: Callee,
    object: &Name,
) -> Result<End, Memory> {
    if !fits(program, callee, matches!(call, Call::Static)) {
        return Ok(End::Thrown(Fault::IncompatibleClassChangeError));
    }
    let Ok(id) = class_of(program, object)? else {
        return Ok(End::Nothing);
    };
    let array = is_array_name(object.as_slice());
    let selected = select(program, searching, call, reference, callee, id, array)?;
    Ok(selected_end(program, selected))
}

// What a call comes to.
fn call_end(
    program: &Program,
    searching: &mut Search,
    call: Call,
    reference: &MethodRef,
    object: &Name,
) -> Result<End, Memory> {
    let id = match class_of(program, &reference.class)? {
        Ok(id) => id,
        Err(fault) => return Ok(End::Thrown(fault)),
    };
    match resolve_method(program, searching, id, reference)? {
        Ok(callee) => callee_end(program, searching, call, reference, callee, object),
        Err(fault) => Ok(End::Thrown(fault)),
    }
}

// What a use of a field comes to. An array has no fields.
fn field_end(
    program: &Program,
    searching: &mut Search,
    reference: &FieldRef,
) -> Result<End, Memory> {
    if is_array_name(reference.class.as_slice()) {
        return Ok(End::Thrown(Fault::NoSuchFieldError));
    }
    let id = match class_of(program, &reference.class)? {
        Ok(id) => id,
        Err(fault) => return Ok(End::Thrown(fault)),
    };
    match resolve_field(
        program,
        &mut searching.family,
        id,
        &reference.name,
        &reference.desc,
    )? {
        Some(site) => Ok(End::Member(site.class)),
        None => Ok(End::Thrown(Fault::NoSuchFieldError)),
    }
}

fn call_at(
    program: &Program,
    searching: &mut Search,
    call: Call,
    linked: &LinkedClass,
    index: u32,
    object: &Name,
) -> Result<End, Memory> {
    match linked.method_ref(index) {
        Some(reference) => call_end(program, searching, call, reference, object),
        None => Ok(End::Nothing),
    }
}

fn field_at(
    program: &Program,
    searching: &mut Search,
    linked: &LinkedClass,
    index: u32,
) -> Result<End, Memory> {
    match linked.entries.get(index as usize) {
        Some(Entry::Field(reference)) => field_end(program, searching, reference),
        _ => Ok(End::Nothing),
    }
}

// What an instruction of a class comes to, on an object or in a caller of this class.
fn use_end(
    program: &Program,
    searching: &mut Search,
    linked: &LinkedClass,
    instruction: Instruction,
    object: &Name,
) -> Result<End, Memory> {
    match instruction {
        Instruction::GetStatic(index) => field_at(program, searching, linked, index),
        Instruction::InvokeStatic(index) => {
            call_at(program, searching, Call::Static, linked, index, object)
        }
        Instruction::InvokeSpecial(index) => {
            call_at(program, searching, Call::Special, linked, index, object)
        }
        Instruction::InvokeVirtual(index) => {
            call_at(program, searching, Call::Virtual, linked, index, object)
        }
        Instruction::InvokeInterface(index) => {
            call_at(program, searching, Call::Interface, linked, index, object)
        }
        _ => Ok(End::Nothing),
    }
}

// The instruction of this number of the first method.
fn instruction_of(linked: &LinkedClass, number: usize) -> Option<Instruction> {
    match linked.methods.get(0)?.body {
        LinkedBody::Code(ref code) => code.instructions.get(number).copied(),
        _ => None,
    }
}

/// What the instruction of this number of a class's first method comes to, on an object or in a
/// caller of this class.
pub fn end_of(
    program: &Program,
    searching: &mut Search,
    main: ClassId,
    number: usize,
    object: &Name,
) -> Result<End, Memory> {
    let Some(info) = program.get(main) else {
        return Ok(End::Nothing);
    };
    let linked = info.linked();
    match instruction_of(linked, number) {
        Some(instruction) => use_end(program, searching, linked, instruction, object),
        None => Ok(End::Nothing),
    }
}
