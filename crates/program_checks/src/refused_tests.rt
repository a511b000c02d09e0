use crate::classes::{EXPECTS, RUNS_OTHERWISE};
use crate::printed::{program, tests_text};
use class_table::Program;
use sample_classes::T;
use std::alloc::Global;
use std::test::Fail;

// A place of T, the byte that stands there instead, and what is told.
type FaultRow = (usize, u8, &'static str);

const FAULTS: [FaultRow; 5] = [
    // `neg` takes a boolean
    (283, 0x12, "BadTest T neg(Z)V B1"),
    // `neg` is static
    (279, 9, "BadTest T neg()V B2"),
    // `neg` is private
    (279, 2, "BadTest T neg()V B3"),
    // `neg` is abstract
    (278, 4, "BadTest T neg()V B3"),
    // the constructor takes a boolean
    (252, 0x12, "BadTest T neg()V B4"),
];

fn told_of(alloc: Global, file: &[u8], at: usize, byte: u8) -> Result<Vec<u8>, Fail> {
    let mut file = file.to_vec(alloc)?;
    if let Some(there) = file.get_mut(at) {
        *there = byte;
    }
    let p = program(alloc, &[file.as_slice()])?;
    tests_text(alloc, &p, &[0])
}

// The first fault that isn't told; none where each is.
fn first_untold(alloc: Global, file: &[u8], rows: &[FaultRow]) -> Result<&'static str, Fail> {
    for row in rows {
        let (at, byte, fault) = *row;
        let found = told_of(alloc, file, at, byte)?;
        if found.as_slice() != fault.as_bytes() {
            return Ok(fault);
        }
    }
    Ok("")
}

fn untold_of_t(alloc: Global) -> Result<&'static str, Fail> {
    first_untold(alloc, &T, &FAULTS)
}

#[test]
fn the_first_broken_rule_is_told(rt: HostRuntime) -> Result<(), Fail> {
    assert_eq!(rt; untold_of_t(rt.alloc())?, "");
    Ok(())
}

fn odd_classes(alloc: Global) -> Result<Program, Fail> {
    program(alloc, &[RUNS_OTHERWISE.as_slice(), EXPECTS.as_slice()])
}

#[test]
fn a_runner_comes_before_a_broken_rule_of_its_class(rt: HostRuntime) -> Result<(), Fail> {
    let p = odd_classes(rt.alloc())?;
    let cases = [
        (0, "RunnerUsed shop/RunsOtherwise"),
        (1, "BadTest odd/Expects nothing()V B5"),
    ];
    for (class, fault) in cases {
        let found = tests_text(rt.alloc(), &p, &[class])?;
        assert!(rt; found.as_slice() == fault.as_bytes(), "{fault}");
    }
    // classes come by name
    let found = tests_text(rt.alloc(), &p, &[0, 1])?;
    assert!(rt; found.as_slice() == b"BadTest odd/Expects nothing()V B5".as_slice());
    Ok(())
}
