//! Programs of a class `A` with small methods, and what is told of them.

use crate::libraries::{ClassRow, library_of};
use class_asm::assemble;
use class_link::LibClass;
use class_model::{ClassId, Seq, SharedBytes};
use class_reader::read_class;
use class_table::{Loaded, Program};
use std::alloc::Global;
use std::test::Fail;
use type_verifier::{VerifyEnd, is_numbered, verify, verify_class, verify_library};

const OBJECT: Option<&'static str> = Some("java/lang/Object");

// Object, what arrays are assignable to, what is thrown, and a few classes: `Lower` stands below
// `Upper`, which implements `Face`; `Far` is an interface that nothing implements.
const CLASSES: [ClassRow; 10] = [
    ("java/lang/Object", None, None, 33),
    ("java/lang/Cloneable", OBJECT, None, 1537),
    ("java/io/Serializable", OBJECT, None, 1537),
    ("java/lang/Throwable", OBJECT, None, 33),
    ("java/lang/String", OBJECT, None, 49),
    ("java/lang/Class", OBJECT, None, 49),
    ("Upper", OBJECT, Some("Face"), 33),
    ("Lower", Some("Upper"), None, 33),
    ("Face", OBJECT, None, 1537),
    ("Far", OBJECT, None, 1537),
];

fn library(alloc: Global) -> Result<Seq<LibClass>, Fail> {
    library_of(alloc, &CLASSES)
}

// The text of a class `A` below `Upper` with these lines, which `|` parts.
fn text_of(alloc: Global, lines: &str) -> Result<Vec<u8>, Fail> {
    let mut text = Vec::new(alloc);
    for byte in b"class A super Upper flags 33 major 52\nimplements Far\nfield 1 x I\nfield 8 s J\n"
    {
        text.push(*byte)?;
    }
    for byte in lines.as_bytes() {
        text.push(if *byte == b'|' { b'\n' } else { *byte })?;
    }
    for byte in b"\nend\n" {
        text.push(*byte)?;
    }
    Ok(text)
}

// The program of the class with these lines.
fn program(alloc: Global, lines: &str) -> Result<Program, Fail> {
    let text = text_of(alloc, lines)?;
    let bytes = assemble(alloc, &text)?;
    let class = read_class(alloc, bytes.as_slice())?;
    let bytes = SharedBytes::new(alloc, bytes)?;
    let mut classes = Seq::new(alloc);
    classes.push(Loaded { bytes, class })?;
    Ok(Program::build(alloc, classes, library(alloc)?)?)
}

// The rule that refuses, and the instruction; none, where all is accepted.
fn told(end: Result<(), VerifyEnd>) -> Option<(u8, u32)> {
    match end {
        Ok(()) => None,
        Err(VerifyEnd::Refused(fault)) => Some((fault.rule, fault.at)),
        Err(VerifyEnd::Memory) => Some((0, 2)),
    }
}

// What is told of the first class of a program, and of all of it. Rule 0 stands for a program that
// can't be asked for, and for two answers.
fn verdict(alloc: Global, program: &Program) -> Option<(u8, u32)> {
    if program.len() == 0 || !is_numbered(program) {
        return Some((0, 0));
    }
    if verify_library(alloc, program).is_err() {
        return Some((0, 1));
    }
    let class = told(verify_class(alloc, program, ClassId(0)));
    let whole = told(verify(alloc, program));
    if class == whole { class } else { Some((0, 3)) }
}

// What is told of the program of these lines.
fn told_of(alloc: Global, lines: &str) -> Result<Option<(u8, u32)>, Fail> {
    let program = program(alloc, lines)?;
    Ok(verdict(alloc, &program))
}

/// The first of these lines that aren't accepted; none where all are.
pub fn first_refused(alloc: Global, cases: &[&'static str]) -> Result<&'static str, Fail> {
    for lines in cases {
        if told_of(alloc, lines)?.is_some() {
            return Ok(*lines);
        }
    }
    Ok("")
}

/// The first of these lines that another rule refuses than the one stated, or at another
/// instruction; none where all are refused so.
pub fn first_other(alloc: Global, cases: &[(&'static str, u8, u32)]) -> Result<&'static str, Fail> {
    for (lines, rule, at) in cases {
        let told = told_of(alloc, lines)?;
        if !(told == Some((*rule, *at))) {
            return Ok(*lines);
        }
    }
    Ok("")
}
