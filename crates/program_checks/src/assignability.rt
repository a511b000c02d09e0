//! Which types are assignable to which (JVMS 4.10.1.2), in a program of a few classes.

use crate::libraries::{ClassRow, library_of};
use class_link::{LibClass, Shared, VType};
use class_model::{Name, Seq, read_text};
use class_table::Program;
use std::alloc::Global;
use std::test::Fail;
use vframes::assignable;

const OBJECT: Option<&'static str> = Some("java/lang/Object");

// Object, a class, one below it that implements an interface, and the interface.
const CLASSES: [ClassRow; 6] = [
    ("java/lang/Object", None, None, 33),
    ("java/lang/Cloneable", OBJECT, None, 1537),
    ("java/io/Serializable", OBJECT, None, 1537),
    ("Upper", OBJECT, None, 33),
    ("Lower", Some("Upper"), Some("Face"), 33),
    ("Face", OBJECT, None, 1537),
];

fn library(alloc: Global) -> Result<Seq<LibClass>, Fail> {
    library_of(alloc, &CLASSES)
}

fn program(alloc: Global) -> Result<Program, Fail> {
    let library = library(alloc)?;
    Ok(Program::build(alloc, Seq::new(alloc), library)?)
}

// The type of a word; else the class or the array of this name.
fn vtype(alloc: Global, word: &str) -> Result<VType, Fail> {
    match word {
        "top" => Ok(VType::Top),
        "int" => Ok(VType::IntType),
        "long" => Ok(VType::LongType),
        "null" => Ok(VType::NullType),
        "this" => Ok(VType::UninitThis),
        "new 3" => Ok(VType::Uninit(3)),
        "new 4" => Ok(VType::Uninit(4)),
        name => {
            let name: Name = read_text(alloc, name.as_bytes())?;
            Ok(VType::Obj(Shared::new(alloc, name)?))
        }
    }
}

// Two types, and whether the first is assignable to the second.
const CASES: [(&str, &str, bool); 52] = [
    ("Upper", "Upper", true),
    ("Lower", "Upper", true),
    ("Upper", "Lower", false),
    ("Lower", "java/lang/Object", true),
    ("java/lang/Object", "Lower", false),
    // whatever class it is, an interface takes it
    ("Lower", "Face", true),
    ("Upper", "Face", true),
    ("java/lang/Object", "Face", true),
    ("Face", "java/lang/Object", true),
    ("Face", "Lower", false),
    // of an absent class there is no object
    ("Absent", "Lower", true),
    ("Absent", "Absent", true),
    ("Absent", "[I", true),
    ("Lower", "Absent", false),
    ("[I", "java/lang/Object", true),
    ("[I", "java/lang/Cloneable", true),
    ("[I", "java/io/Serializable", true),
    ("[I", "Upper", false),
    ("[I", "Face", false),
    ("[I", "[I", true),
    ("[I", "[J", false),
    ("[B", "[Z", false),
    ("[I", "[[I", false),
    ("[[I", "[I", false),
    ("[I", "[Ljava/lang/Object;", false),
    ("[[I", "[Ljava/lang/Object;", true),
    ("[[I", "[Ljava/lang/Cloneable;", true),
    ("[[I", "[LUpper;", false),
    ("[LLower;", "[LUpper;", true),
    ("[LUpper;", "[LLower;", false),
    ("[LLower;", "[LFace;", true),
    ("[LUpper;", "[I", false),
    ("[[LLower;", "[[LUpper;", true),
    ("Upper", "[LUpper;", false),
    ("[LUpper;", "java/lang/Object", true),
    ("null", "Upper", true),
    ("null", "[I", true),
    ("null", "null", true),
    ("null", "int", false),
    ("Upper", "null", false),
    ("this", "this", true),
    ("this", "java/lang/Object", false),
    ("new 3", "new 3", true),
    ("new 3", "new 4", false),
    ("new 3", "java/lang/Object", false),
    ("int", "int", true),
    ("int", "long", false),
    ("long", "long", true),
    ("top", "int", false),
    ("long", "top", true),
    ("Upper", "top", true),
    ("top", "top", true),
];

fn is_as_stated(alloc: Global, p: &Program, from: &str, to: &str, is: bool) -> Result<bool, Fail> {
    let from = vtype(alloc, from)?;
    let to = vtype(alloc, to)?;
    Ok(assignable(alloc, p, &from, &to)? == is)
}

// The number of the first case that isn't so; how many there are, where all are so.
fn first_other(alloc: Global, cases: &[(&'static str, &'static str, bool)]) -> Result<usize, Fail> {
    let p = program(alloc)?;
    for i in 0..cases.len() {
        let (from, to, is) = cases[i];
        if !is_as_stated(alloc, &p, from, to, is)? {
            return Ok(i);
        }
    }
    Ok(cases.len())
}

fn other_of_cases(alloc: Global) -> Result<usize, Fail> {
    first_other(alloc, &CASES)
}

#[test]
fn types_are_assignable(rt: HostRuntime) -> Result<(), Fail> {
    assert_eq!(rt; other_of_cases(rt.alloc())?, 52);
    Ok(())
}
