//! Each line with what it comes to: a line with an instruction and, behind `by`, the class of the
//! object or of the caller is a use; each other line is the name of a class or an array.

ghost use Rattle.std.specs.Prelude.{OnOk};
ghost use Rattle.class_table.specs.Seen.{IsConsultedOf};

use crate::uses::{End, end_of};
use class_model::names::ascii;
use class_model::{ClassId, Memory, Name};
use class_table::{Consulted, Program};
use jvm_link::{Search, resolve_class};
use program_rules::Fault;

fn push(out: &mut String, text: &str) -> Result<(), Memory> {
    out.push_str(text)?;
    Ok(())
}

fn push_name(out: &mut String, name: &Name) -> Result<(), Memory> {
    let text = String::from_utf16_lossy(*out.allocator(), name.as_slice())?;
    push(out, text.as_str())
}

fn push_class(program: &Program, id: ClassId, out: &mut String) -> Result<(), Memory> {
    match program.get(id) {
        Some(info) => push_name(out, info.name()),
        None => push(out, "no class"),
    }
}

fn word_of(fault: Fault) -> &'static str {
    match fault {
        Fault::NoClassDefFoundError => "NoClassDefFoundError",
        Fault::NoSuchFieldError => "NoSuchFieldError",
        Fault::NoSuchMethodError => "NoSuchMethodError",
        Fault::IncompatibleClassChangeError => "IncompatibleClassChangeError",
        Fault::AbstractMethodError => "AbstractMethodError",
        _ => "another error",
    }
}

fn push_end(program: &Program, end: End, out: &mut String) -> Result<(), Memory> {
    match end {
        End::Member(id) => push_class(program, id, out),
        End::Clone => push(out, "clone"),
        End::Thrown(fault) => push(out, word_of(fault)),
        End::Nothing => push(out, "nothing"),
    }
}

// What a use comes to.
fn push_use(
    program: &Program,
    searching: &mut Search,
    main: ClassId,
    number: usize,
    object: &str,
    out: &mut String,
) -> Result<(), Memory> {
    let object = ascii(*out.allocator(), object)?;
    let end = end_of(program, searching, main, number, &object)?;
    push_end(program, end, out)
}

// What a name stands for.
fn push_meaning(
    program: &Program,
    seen: &mut Consulted,
    line: &str,
    out: &mut String,
) -> Result<(), Memory>
    requires { IsConsultedOf program.now seen.old }
    ensures { OnOk result (IsConsultedOf program.now seen.new) }
{
    let alloc = *out.allocator();
    let name = ascii(alloc, line)?;
    let end = match resolve_class(alloc, program, seen, &name)? {
        Ok(id) => End::Member(id),
        Err(fault) => End::Thrown(fault),
    };
    push_end(program, end, out)
}

fn push_line(
    program: &Program,
    searching: &mut Search,
    seen: &mut Consulted,
    main: ClassId,
    number: usize,
    line: &str,
    out: &mut String,
) -> Result<(), Memory>
    requires { IsConsultedOf program.now seen.old }
    ensures { OnOk result (IsConsultedOf program.now seen.new) }
{
    push(out, line)?;
    push(out, " -> ")?;
    match line.split_once(" by ") {
        Some((_, object)) => push_use(program, searching, main, number, object, out)?,
        None => push_meaning(program, seen, line, out)?,
    }
    push(out, "\n")
}

fn push_consulted(names: &[Name], out: &mut String) -> Result<(), Memory> {
    for name in names {
        push(out, "consulted ")?;
        push_name(out, name)?;
        push(out, "\n")?;
    }
    Ok(())
}

// Each line with what it comes to, and then what the names consulted, each resolved behind the one
// before.
fn push_all(program: &Program, main: ClassId, lines: &str, out: &mut String) -> Result<(), Memory> {
    let alloc = *out.allocator();
    let mut searching = Search::new(alloc);
    let mut seen = Consulted::new(alloc, program)?;
    for (number, line) in lines.lines().enumerate() {
        push_line(program, &mut searching, &mut seen, main, number, line, out)?;
    }
    push_consulted(seen.names().as_slice(), out)
}

/// Each line with what it comes to, and then what the names consulted. The use of a line is the
/// instruction of that number of the first method of the class `Main`; without one there are none.
pub fn push_lines(program: &Program, lines: &str, out: &mut String) -> Result<(), Memory> {
    let main = ascii(*out.allocator(), "Main")?;
    match program.find(&main) {
        Some(main) => push_all(program, main, lines, out),
        None => Ok(()),
    }
}
