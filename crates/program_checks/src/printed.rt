//! Programs of class files, and their tests as text.

use class_model::{ClassId, Name, Seq, SharedBytes, read_text, write_text};
use class_reader::read_class;
use class_table::{CallKind, LibClass, Loaded, Program, Test};
use std::alloc::Global;
use std::test::Fail;
use test_discovery::{Rule, TestFault, tests};

fn object_alone(alloc: Global) -> Result<Seq<LibClass>, Fail> {
    let mut library = Seq::new(alloc);
    library.push(LibClass {
        name: read_text(alloc, b"java/lang/Object")?,
        parent: None,
        interfaces: Seq::new(alloc),
        flags: 33,
        pool: Seq::new(alloc),
        fields: Seq::new(alloc),
        methods: Seq::new(alloc),
    })?;
    Ok(library)
}

/// The program of these class files, in their order, and Object.
pub fn program(alloc: Global, files: &[&[u8]]) -> Result<Program, Fail> {
    let mut classes = Seq::new(alloc);
    for file in files {
        classes.push(Loaded {
            bytes: SharedBytes::new(alloc, Seq::new(alloc))?,
            class: read_class(alloc, file)?,
        })?;
    }
    Ok(Program::build(alloc, classes, object_alone(alloc)?)?)
}

fn put(alloc: Global, text: &mut Vec<u8>, piece: &str, name: &Name) -> Result<(), Fail> {
    text.extend_from_slice(piece.as_bytes())?;
    text.extend_from_slice(write_text(alloc, name)?.as_slice())?;
    Ok(())
}

fn kind_letter(kind: CallKind) -> &'static str {
    match kind {
        CallKind::ClassWide => "\n  class ",
        CallKind::Make => "\n  make ",
        CallKind::Around => "\n  around ",
        CallKind::TestMethod => "\n  test ",
    }
}

fn put_test(alloc: Global, text: &mut Vec<u8>, test: &Test) -> Result<(), Fail> {
    put(alloc, text, "", &test.class)?;
    put(alloc, text, ".", &test.method)?;
    if let Some(expected) = &test.expected {
        put(alloc, text, " expects ", expected)?;
    }
    for call in test.script.as_slice() {
        put(alloc, text, kind_letter(call.kind), &call.class)?;
        put(alloc, text, ".", &call.method)?;
    }
    text.push(b'\n')?;
    Ok(())
}

fn rule_name(rule: Rule) -> &'static str {
    match rule {
        Rule::B1 => " B1",
        Rule::B2 => " B2",
        Rule::B3 => " B3",
        Rule::B4 => " B4",
        Rule::B5 => " B5",
    }
}

fn put_fault(alloc: Global, text: &mut Vec<u8>, fault: TestFault) -> Result<(), Fail> {
    match fault {
        TestFault::BadTest {
            class,
            method,
            rule,
        } => {
            put(alloc, text, "BadTest ", &class)?;
            put(alloc, text, " ", &method)?;
            text.extend_from_slice(rule_name(rule).as_bytes())?;
        }
        TestFault::RunnerUsed { class } => put(alloc, text, "RunnerUsed ", &class)?,
        TestFault::Memory => text.push(b'!')?,
    }
    Ok(())
}

fn numbers(alloc: Global, from: &[u32]) -> Result<Seq<ClassId>, Fail> {
    let mut ids = Seq::new(alloc);
    for id in from {
        ids.push(ClassId(*id))?;
    }
    Ok(ids)
}

/// The tests of the classes of these numbers with what each calls, or the fault.
pub fn tests_text(alloc: Global, program: &Program, from: &[u32]) -> Result<Vec<u8>, Fail> {
    let mut text = Vec::new(alloc);
    match tests(alloc, program, &numbers(alloc, from)?) {
        Ok(found) => {
            for test in found.as_slice() {
                put_test(alloc, &mut text, test)?;
            }
        }
        Err(fault) => put_fault(alloc, &mut text, fault)?,
    }
    Ok(text)
}
