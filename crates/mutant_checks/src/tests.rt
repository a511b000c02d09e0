use crate::samples::{
    AT_BOUND_HEAD, AT_BOUND_NOPS, AT_BOUND_TAIL, CALL, CALL_POPPED, LEAST_BYTE, LEAST_BYTE_NEGATED,
    LEAST_SHORT, LONG_BOX, LONG_BOX_EMPTY, LONG_FRAME, NEW, NEW_MOVED, SHORT_FRAME, TEXT,
    TEXT_EMPTY,
};
use class_model::{Bytes, Class};
use class_reader::read_class;
use class_writer::what_is_spelled_is_written;
use mutant_apply::{apply, mutants_fit};
use mutator_ops::class_mutants;
use sample_classes::A;
use std::alloc::Global;
use std::test::Fail;

// Where the opcode of the jump of A stands.
const JUMP: usize = 126;

// JVMS 6.5: iflt, the opposite of ifge.
const IFLT: u8 = 0x9b;

#[test]
fn the_opposite_jump_stands_in_its_place(rt: HostRuntime) -> Result<(), Fail> {
    what_is_spelled_is_written();
    mutants_fit();
    let class = read_class(rt.alloc(), &A)?;
    let mutants = class_mutants(rt.alloc(), &class)?;
    let Some(mutant) = mutants.get(1) else {
        assert!(rt; false);
        return Ok(());
    };
    assert_eq!(rt; mutant.line, 3);
    let made = apply(rt.alloc(), &class, &mutant.edit)?;
    let mut wanted = A;
    wanted[JUMP] = IFLT;
    assert!(rt; matches!(&made, Some((_, bytes)) if bytes.as_slice() == wanted.as_slice()));
    Ok(())
}

// ---- what the first mutant of a class file is

// The bytes that its edit makes, if the edit has a layout.
fn first_mutant(alloc: Global, file: &[u8]) -> Result<Option<Bytes>, Fail> {
    what_is_spelled_is_written();
    mutants_fit();
    let class = read_class(alloc, file)?;
    let mutants = class_mutants(alloc, &class)?;
    let Some(mutant) = mutants.get(0) else {
        return Err("the class has a mutant".into());
    };
    match apply(alloc, &class, &mutant.edit)? {
        Some((_, bytes)) => Ok(Some(bytes)),
        None => Ok(None),
    }
}

fn makes(alloc: Global, file: &[u8], wanted: &[u8]) -> Result<bool, Fail> {
    match first_mutant(alloc, file)? {
        Some(bytes) => Ok(*bytes.as_slice() == *wanted),
        None => Ok(false),
    }
}

#[test]
fn what_lies_behind_an_edit_moves(rt: HostRuntime) -> Result<(), Fail> {
    assert!(rt;
        makes(rt.alloc(), &CALL, &CALL_POPPED)?,
        "a call before a switch"
    );
    assert!(rt;
        makes(rt.alloc(), &NEW, &NEW_MOVED)?,
        "a row's end, and the place of a new"
    );
    assert!(rt;
        makes(rt.alloc(), &SHORT_FRAME, &LONG_FRAME)?,
        "a frame past 63"
    );
    Ok(())
}

#[test]
fn entries_are_found_or_added(rt: HostRuntime) -> Result<(), Fail> {
    assert!(rt; makes(rt.alloc(), &LONG_BOX, &LONG_BOX_EMPTY)?, "a method");
    assert!(rt; makes(rt.alloc(), &TEXT, &TEXT_EMPTY)?, "the empty string");
    Ok(())
}

#[test]
fn an_increment_may_have_no_negation(rt: HostRuntime) -> Result<(), Fail> {
    assert!(rt; makes(rt.alloc(), &LEAST_BYTE, &LEAST_BYTE_NEGATED)?);
    assert!(rt; first_mutant(rt.alloc(), &LEAST_SHORT)?.is_none());
    Ok(())
}

#[test]
fn a_code_at_its_bound_does_not_grow(rt: HostRuntime) -> Result<(), Fail> {
    let mut file = Bytes::from_slice(rt.alloc(), &AT_BOUND_HEAD)?;
    for _ in 0..AT_BOUND_NOPS {
        file.push(0)?;
    }
    file.extend_from_slice(&AT_BOUND_TAIL)?;
    assert!(rt; first_mutant(rt.alloc(), file.as_slice())?.is_none());
    Ok(())
}
