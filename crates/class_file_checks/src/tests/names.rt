//! Names that a class file declares, and how faults and mutators are printed.

use class_model::{ClassFault, Mutator, is_class_name, is_field_name, is_method_name, read_text};
use std::alloc::Global;
use std::test::Fail;

/// A text, and whether it is a field's, a method's and a class's.
type NameRow = (&'static str, [bool; 3]);

const NAMES: [NameRow; 13] = [
    ("f", [true, true, true]),
    ("", [false, false, false]),
    ("java/lang/Object", [false, false, true]),
    ("a//b", [false, false, false]),
    ("/a", [false, false, false]),
    ("a/", [false, false, false]),
    ("a.b", [false, false, false]),
    ("a;", [false, false, false]),
    ("[I", [false, false, false]),
    ("<init>", [true, true, true]),
    ("<clinit>", [true, true, true]),
    ("<x>", [true, false, true]),
    ("a>b", [true, false, true]),
];

fn is_name(alloc: Global, text: &str) -> Result<[bool; 3], Fail> {
    let name = read_text(alloc, text.as_bytes())?;
    let units = name.as_slice();
    Ok([
        is_field_name(units),
        is_method_name(units),
        is_class_name(units),
    ])
}

/// The number of the first row that isn't so; how many there are, where each is.
fn first_other_name(alloc: Global, rows: &[NameRow]) -> Result<usize, Fail> {
    for i in 0..rows.len() {
        let (text, wanted) = rows[i];
        if is_name(alloc, text)? != wanted {
            return Ok(i);
        }
    }
    Ok(rows.len())
}

fn other_of_names(alloc: Global) -> Result<usize, Fail> {
    first_other_name(alloc, &NAMES)
}

/// Units, and whether they are the name of a class.
type SurrogateRow = (&'static [u16], bool);

const SURROGATES: [SurrogateRow; 6] = [
    (&[0xD83D, 0xDE00], true),
    (&[0x41, 0xD83D], false),
    (&[0xDE00], false),
    (&[0xDE00, 0xD83D], false),
    (&[0xD83D, 0xDE00, 0x2F, 0x41], true),
    (&[0xE000], true),
];

fn first_other_units(rows: &[SurrogateRow]) -> usize {
    for i in 0..rows.len() {
        let (units, wanted) = rows[i];
        if is_class_name(units) != wanted {
            return i;
        }
    }
    rows.len()
}

fn other_of_surrogates() -> usize {
    first_other_units(&SURROGATES)
}

#[test]
fn declared_names_keep_the_rule(rt: HostRuntime) -> Result<(), Fail> {
    assert_eq!(rt; other_of_names(rt.alloc())?, 13);
    assert_eq!(rt; other_of_surrogates(), 6);
    Ok(())
}

#[test]
fn faults_and_mutators_are_printed(rt: HostRuntime) {
    let faults = [
        (ClassFault::Truncated { at: 8 }, Some(3), 8),
        (ClassFault::BadOpcode { at: 126, op: 168 }, Some(7), 126),
        (ClassFault::BadVersion { major: 53 }, Some(18), 53),
        (ClassFault::TrailingBytes { at: 160 }, Some(19), 160),
        (ClassFault::Memory, None, 0),
    ];
    for (fault, number, value) in faults {
        assert!(rt;
            fault.number() == number && fault.value() == value,
            "{fault}"
        );
    }
    assert!(rt; Mutator::NegateConditionals.name() == "NEGATE_CONDITIONALS");
    assert!(rt; Mutator::ConditionalsBoundary < Mutator::Increments);
}
