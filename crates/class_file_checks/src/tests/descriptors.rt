//! Descriptors of fields and methods.

use class_model::{DescFault, Kind, TextFault, parse_field, parse_method, read_text};
use std::alloc::Global;
use std::test::Fail;

/// Whether a kind is the one that a word stands for in these tables: a letter, or else the name of
/// a class or the text of an array.
fn is_kind(alloc: Global, kind: &Kind, word: &str) -> Result<bool, TextFault> {
    let name = read_text(alloc, word.as_bytes())?;
    Ok(match kind {
        Kind::Boolean => word == "Z",
        Kind::Byte => word == "B",
        Kind::Char => word == "C",
        Kind::Short => word == "S",
        Kind::Int => word == "I",
        Kind::Long => word == "J",
        Kind::Ref(text) => *text == name,
    })
}

type FieldRow = (&'static str, &'static str);

const FIELDS: [FieldRow; 10] = [
    ("Z", "Z"),
    ("B", "B"),
    ("C", "C"),
    ("S", "S"),
    ("I", "I"),
    ("J", "J"),
    ("Ljava/lang/String;", "java/lang/String"),
    ("[I", "[I"),
    ("[[Ljava/util/Map$Entry;", "[[Ljava/util/Map$Entry;"),
    ("LF;", "F"),
];

fn is_field(alloc: Global, desc: &str, word: &str) -> Result<bool, Fail> {
    let kind = parse_field(alloc, &read_text(alloc, desc.as_bytes())?)?;
    Ok(is_kind(alloc, &kind.copy()?, word)?)
}

/// The number of the first row that isn't so; how many there are, where each is.
fn first_other_row(alloc: Global, rows: &[FieldRow]) -> Result<usize, Fail> {
    for i in 0..rows.len() {
        let (desc, word) = rows[i];
        if !is_field(alloc, desc, word)? {
            return Ok(i);
        }
    }
    Ok(rows.len())
}

fn other_of_fields(alloc: Global) -> Result<usize, Fail> {
    first_other_row(alloc, &FIELDS)
}

#[test]
fn fields_of_real_classes(rt: HostRuntime) -> Result<(), Fail> {
    assert_eq!(rt; other_of_fields(rt.alloc())?, 10);
    Ok(())
}

#[test]
fn methods_of_real_classes(rt: HostRuntime) -> Result<(), Fail> {
    // the arguments and the result, an empty word for void
    let vectors: [(&str, &[&str], &str); 2] = [
        ("([Ljava/lang/String;)V", &["[Ljava/lang/String;"], ""),
        (
            "(JILjava/lang/Object;)[[Z",
            &["J", "I", "java/lang/Object"],
            "[[Z",
        ),
    ];
    for (desc, args, returned) in vectors {
        let types = parse_method(rt.alloc(), &read_text(rt.alloc(), desc.as_bytes())?)?.copy()?;
        assert!(rt; types.args.len() == args.len(), "{desc}");
        for (i, word) in args.iter().enumerate() {
            let is_same = match types.args.get(i) {
                Some(kind) => is_kind(rt.alloc(), kind, word)?,
                None => false,
            };
            assert!(rt; is_same, "{word}");
        }
        let is_same = match &types.ret {
            Some(kind) => is_kind(rt.alloc(), kind, returned)?,
            None => returned.is_empty(),
        };
        assert!(rt; is_same, "{desc}");
    }
    Ok(())
}

const BAD_FIELDS: [&str; 13] = [
    "", "V", "X", "L", "L;", "La", "La//b;", "La.b;", "[", "[V", "IF", "II", "()V",
];

const BAD_METHODS: [&str; 13] = [
    "", "I", "()", "(I", "(I)", "()VV", "()[V", "(V)V", "(FX)V", "(F)", "()F;", "V()", "(L;)V",
];

const FLOAT_FIELDS: [&str; 4] = ["F", "D", "[F", "[[D"];

const FLOAT_METHODS: [&str; 4] = ["(F)V", "()D", "(ILjava/lang/Object;[D)Z", "(I)[F"];

/// The number of the first text of which another fault is told as a field's; how many there are,
/// where none is.
fn first_other_field(
    alloc: Global,
    texts: &[&'static str],
    fault: DescFault,
) -> Result<usize, Fail> {
    for i in 0..texts.len() {
        let name = read_text(alloc, texts[i].as_bytes())?;
        if parse_field(alloc, &name).err() != Some(fault) {
            return Ok(i);
        }
    }
    Ok(texts.len())
}

/// The same as a method's.
fn first_other_method(
    alloc: Global,
    texts: &[&'static str],
    fault: DescFault,
) -> Result<usize, Fail> {
    for i in 0..texts.len() {
        let name = read_text(alloc, texts[i].as_bytes())?;
        if parse_method(alloc, &name).err() != Some(fault) {
            return Ok(i);
        }
    }
    Ok(texts.len())
}

fn other_of_bad_fields(alloc: Global) -> Result<usize, Fail> {
    first_other_field(alloc, &BAD_FIELDS, DescFault::Bad)
}

fn other_of_bad_methods(alloc: Global) -> Result<usize, Fail> {
    first_other_method(alloc, &BAD_METHODS, DescFault::Bad)
}

fn other_of_float_fields(alloc: Global) -> Result<usize, Fail> {
    first_other_field(alloc, &FLOAT_FIELDS, DescFault::Float)
}

fn other_of_float_methods(alloc: Global) -> Result<usize, Fail> {
    first_other_method(alloc, &FLOAT_METHODS, DescFault::Float)
}

#[test]
fn other_texts_are_refused(rt: HostRuntime) -> Result<(), Fail> {
    assert_eq!(rt; other_of_bad_fields(rt.alloc())?, 13);
    assert_eq!(rt; other_of_bad_methods(rt.alloc())?, 13);
    assert_eq!(rt; other_of_float_fields(rt.alloc())?, 4);
    assert_eq!(rt; other_of_float_methods(rt.alloc())?, 4);
    Ok(())
}
