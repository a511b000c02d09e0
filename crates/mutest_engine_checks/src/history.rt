//! Runs with the history of an earlier run, and with several workers.

use crate::calls::{Ended, call};
use crate::needed::B;
use class_model::Bytes;
use mt_edge::MemTree;
use sample_classes::{A, T};
use std::alloc::Global;
use std::sync::Wait;
use std::test::Fail;
use std::thread::Threads;

/// What is told of a run of six mutants and two tests, of which so many records are reused.
pub const FIRST: &str =
    "mutants 6 killed 4 survived 2 no_coverage 0 timed_out 0 non_viable 0 errors 0 reused 0\n";

pub const AGAIN: &str =
    "mutants 6 killed 4 survived 2 no_coverage 0 timed_out 0 non_viable 0 errors 0 reused 12\n";

// A history of no records.
const NONE: [u8; 16] = [
    0x4d, 0x54, 0x48, 0x49, 0x00, 0x02, 0x00, 0x01, 0x00, 0x00, 0x00, 0x00, 0x00, 0x00, 0x00, 0x00,
];

// A history of no classes, whose one record says that T was consulted and has the bytes of class 1:
// that number stands at byte 56.
const PAST_THE_POOL: [u8; 64] = [
    0x4d, 0x54, 0x48, 0x49, 0x00, 0x02, 0x00, 0x01, 0x00, 0x00, 0x00, 0x00, 0x00, 0x00, 0x00, 0x01,
    0x00, 0x01, 0x54, 0x00, 0x03, 0x6e, 0x65, 0x67, 0x00, 0x40, 0x00, 0x00, 0x00, 0x00, 0x04, 0x00,
    0x00, 0x00, 0x00, 0x00, 0x00, 0x98, 0x96, 0x80, 0x00, 0x00, 0x00, 0x00, 0x00, 0x00, 0x00, 0x00,
    0x0f, 0x00, 0x00, 0x00, 0x01, 0x00, 0x01, 0x54, 0x00, 0x00, 0x00, 0x01, 0x00, 0x00, 0x00, 0x00,
];

/// How a run ends, and what it leaves at `r.json` and `new.mth`.
#[derive(Drop)]
pub struct Told {
    pub ended: Ended,
    pub report: Bytes,
    pub history: Bytes,
}

fn held_at(alloc: Global, tree: &MemTree, path: &str) -> Result<Bytes, Fail> {
    match tree.held(path) {
        Some(bytes) => Ok(Bytes::from_slice(alloc, bytes)?),
        None => Ok(Bytes::new(alloc)),
    }
}

/// A run of these files, some of whose calls fail, with further options.
pub fn run_with(
    rt: &(impl Threads + Wait + Sync + AllocGlobal),
    files: &[(&str, &[u8])],
    options: &[&str],
    fails: &[u64],
) -> Result<Told, Fail> {
    let alloc = rt.alloc();
    let mut held = Vec::new(alloc);
    for (path, bytes) in files {
        held.push((
            String::from_str(alloc, path)?,
            Bytes::from_slice(alloc, bytes)?,
        ))?;
    }
    let mut tree = MemTree::new(alloc, held, fails.to_vec(alloc)?)?;
    let mut words = Vec::new(alloc);
    for word in ["run", "--classes", "c", "--tests", "t"] {
        words.push(word)?;
    }
    for word in ["--report", "r.json", "--new-history", "new.mth"] {
        words.push(word)?;
    }
    for word in options {
        words.push(*word)?;
    }
    let ended = call(rt, words.as_slice(), &mut tree, &[])?;
    Ok(Told {
        ended,
        report: held_at(alloc, &tree, "r.json")?,
        history: held_at(alloc, &tree, "new.mth")?,
    })
}

// The first run, without a history.
fn first(rt: &(impl Threads + Wait + Sync + AllocGlobal)) -> Result<Told, Fail> {
    let files = [("c/A.class", A.as_slice()), ("t/T.class", T.as_slice())];
    run_with(rt, &files, &[], &[])
}

// A run of a class with the history of the first one.
fn again<'a>(
    rt: &(impl Threads + Wait + Sync + AllocGlobal),
    class: &'a [u8],
    history: &'a [u8],
) -> Result<Told, Fail> {
    let files = [
        ("c/A.class", class),
        ("t/T.class", T.as_slice()),
        ("old.mth", history),
    ];
    run_with(rt, &files, &["--history", "old.mth"], &[])
}

#[test]
fn a_run_again_makes_none(rt: HostRuntime) -> Result<(), Fail> {
    let old = first(&rt)?;
    assert!(rt; old.ended.is(0, FIRST, 188));
    let new = again(&rt, &A, old.history.as_slice())?;
    assert!(rt; new.ended.is(0, AGAIN, 0));
    assert_eq!(rt; new.report.as_slice(), old.report.as_slice());
    assert_eq!(rt; new.history.as_slice(), old.history.as_slice());
    Ok(())
}

// A with its pool entries 5 and 6 exchanged, and the indices of its method with them.
fn exchanged(alloc: Global) -> Result<Vec<u8>, Fail> {
    let entries = [
        0x01, 0x00, 0x04, 0x28, 0x49, 0x29, 0x5a, 0x01, 0x00, 0x01, 0x66,
    ];
    let mut bytes = A.to_vec(alloc)?;
    for (place, entry) in entries.iter().enumerate() {
        if let Some(byte) = bytes.get_mut(39 + place) {
            *byte = *entry;
        }
    }
    for (place, index) in [(106, 6), (108, 5)] {
        if let Some(byte) = bytes.get_mut(place) {
            *byte = index;
        }
    }
    Ok(bytes)
}

#[test]
fn bytes_decide_what_is_reused(rt: HostRuntime) -> Result<(), Fail> {
    let old = first(&rt)?;
    let class = exchanged(rt.alloc())?;
    let new = again(&rt, class.as_slice(), old.history.as_slice())?;
    assert!(rt; new.ended.is(0, FIRST, 188));
    assert_eq!(rt; new.report.as_slice(), old.report.as_slice());
    Ok(())
}

#[test]
fn a_class_that_no_test_consults_changes_no_run(rt: HostRuntime) -> Result<(), Fail> {
    let old = first(&rt)?;
    let files = [
        ("c/A.class", A.as_slice()),
        ("c/B.class", B.as_slice()),
        ("t/T.class", T.as_slice()),
        ("old.mth", old.history.as_slice()),
    ];
    let new = run_with(&rt, &files, &["--history", "old.mth"], &[])?;
    assert!(rt;
        new.ended.is(
            0,
            "mutants 8 killed 4 survived 2 no_coverage 2 timed_out 0 non_viable 0 errors 0 reused 12\n",
            0
        )
    );
    assert_eq!(rt; new.history.as_slice(), old.history.as_slice());
    Ok(())
}

// `h` makes a new C and answers 1; where C isn't there, it answers 2.
const M: &str = "class M super java/lang/Object flags 33 major 52
method 9 h ()I stack 2 locals 1
line 4
START:
new C
dup
invokespecial C.<init> ()V
pop
iconst_1
ireturn
END:
CAUGHT:
frame one java/lang/NoClassDefFoundError
line 6
pop
iconst_2
ireturn
handler START END CAUGHT java/lang/NoClassDefFoundError
end
";

const C: &str = "class C super java/lang/Object flags 33 major 52
method 1 <init> ()V stack 1 locals 1
aload_0
invokespecial java/lang/Object.<init> ()V
return
end
";

// A test that asserts that `M.h()` is above 0.
const M_TEST: &str = "class MTest super java/lang/Object flags 33 major 52
method 1 <init> ()V stack 1 locals 1
aload_0
invokespecial java/lang/Object.<init> ()V
return
method 1 is_above_zero ()V stack 1 locals 1
note Lorg/junit/jupiter/api/Test;
invokestatic M.h ()I
ifgt ABOVE
iconst_0
goto ASSERTED
ABOVE:
frame same
iconst_1
ASSERTED:
frame one int
invokestatic org/junit/jupiter/api/Assertions.assertTrue (Z)V
return
end
";

/// The class file of a text.
pub fn assembled(
    rt: &(impl Threads + Wait + Sync + AllocGlobal),
    text: &str,
) -> Result<Bytes, Fail> {
    let alloc = rt.alloc();
    let mut files = Vec::new(alloc);
    files.push((
        String::from_str(alloc, "x.txt")?,
        Bytes::from_slice(alloc, text.as_bytes())?,
    ))?;
    let mut tree = MemTree::new(alloc, files, Vec::new(alloc))?;
    call(rt, &["asm", "x.txt", "--out", "x.class"], &mut tree, &[])?;
    held_at(alloc, &tree, "x.class")
}

// The entries of the run's record: the class of tests, M, and C, which isn't there.
const ENTRIES: [u8; 29] = [
    0x00, 0x00, 0x00, 0x03, 0x00, 0x05, 0x4d, 0x54, 0x65, 0x73, 0x74, 0x00, 0x00, 0x00, 0x01, 0x00,
    0x01, 0x4d, 0x00, 0x00, 0x00, 0x02, 0x00, 0x01, 0x43, 0x00, 0x00, 0x00, 0x00,
];

#[test]
fn a_class_that_appears_has_runs_made_again(rt: HostRuntime) -> Result<(), Fail> {
    let class = assembled(&rt, M)?;
    let test = assembled(&rt, M_TEST)?;
    let added = assembled(&rt, C)?;
    let files = [
        ("c/M.class", class.as_slice()),
        ("t/MTest.class", test.as_slice()),
    ];
    // The test takes 17 steps, also with 0 for 1, which isn't reached; with 0 for 2 it takes 20.
    let old = run_with(&rt, &files, &[], &[])?;
    assert!(rt;
        old.ended.is(
            0,
            "mutants 2 killed 1 survived 1 no_coverage 0 timed_out 0 non_viable 0 errors 0 reused 0\n",
            54
        )
    );
    assert!(rt;
        old.history
            .as_slice()
            .windows(29)
            .any(|part| part == ENTRIES.as_slice())
    );
    let files = [
        ("c/M.class", class.as_slice()),
        ("c/C.class", added.as_slice()),
        ("t/MTest.class", test.as_slice()),
        ("old.mth", old.history.as_slice()),
    ];
    // With C the test takes 22 steps, and 25 with 0 for 1. The handler isn't reached.
    let new = run_with(&rt, &files, &["--history", "old.mth"], &[])?;
    assert!(rt;
        new.ended.is(
            0,
            "mutants 2 killed 1 survived 0 no_coverage 1 timed_out 0 non_viable 0 errors 0 reused 0\n",
            47
        )
    );
    Ok(())
}

#[test]
fn without_tests_there_are_no_records(rt: HostRuntime) -> Result<(), Fail> {
    let files = [("c/A.class", A.as_slice()), ("t/x.txt", b"x".as_slice())];
    let told = run_with(&rt, &files, &[], &[])?;
    assert!(rt;
        told.ended.is(
            0,
            "mutants 6 killed 0 survived 0 no_coverage 6 timed_out 0 non_viable 0 errors 0 reused 0\n",
            0
        )
    );
    assert_eq!(rt; told.history.as_slice(), NONE.as_slice());
    Ok(())
}

#[test]
fn a_history_that_is_none_is_told_by_its_place(rt: HostRuntime) -> Result<(), Fail> {
    let mut longer = NONE.to_vec(rt.alloc())?;
    longer.push(0)?;
    let mut other = NONE.to_vec(rt.alloc())?;
    if let Some(byte) = other.get_mut(5) {
        *byte = 3;
    }
    let histories = [
        (&longer[..], "mutest: HistoryBad 16\n"),
        (&NONE[..15], "mutest: HistoryBad 12\n"),
        (&other[..], "mutest: HistoryBad 4\n"),
        (&PAST_THE_POOL[..], "mutest: HistoryBad 56\n"),
    ];
    for (history, line) in histories {
        let told = again(&rt, &A, history)?;
        assert!(rt; told.ended.is(9, line, 0));
        assert_eq!(rt; told.report.len(), 0);
    }
    Ok(())
}

#[test]
fn a_history_that_is_not_held_is_none(rt: HostRuntime) -> Result<(), Fail> {
    let files = [("c/A.class", A.as_slice()), ("t/T.class", T.as_slice())];
    let told = run_with(&rt, &files, &["--history", "old.mth"], &[])?;
    assert!(rt; told.ended.is(0, FIRST, 188));
    Ok(())
}

#[test]
fn a_history_that_cannot_be_replaced_is_told(rt: HostRuntime) -> Result<(), Fail> {
    let old = first(&rt)?;
    let files = [("c/A.class", A.as_slice()), ("t/T.class", T.as_slice())];
    // Two folders are listed before, two files are read, and the report is replaced.
    let told = run_with(&rt, &files, &[], &[5])?;
    assert!(rt; told.ended.is(11, "mutest: WriteFault history\n", 188));
    assert_eq!(rt; told.report.as_slice(), old.report.as_slice());
    assert_eq!(rt; told.history.len(), 0);
    Ok(())
}

#[test]
fn workers_write_the_same(rt: HostRuntime) -> Result<(), Fail> {
    let old = first(&rt)?;
    let files = [("c/A.class", A.as_slice()), ("t/T.class", T.as_slice())];
    for workers in ["2", "8", "64"] {
        let told = run_with(&rt, &files, &["--workers", workers], &[])?;
        assert!(rt; told.ended.is(0, FIRST, told.ended.steps));
        assert_eq!(rt; told.report.as_slice(), old.report.as_slice());
        assert_eq!(rt; told.history.as_slice(), old.history.as_slice());
        assert!(rt; 188 <= told.ended.steps && told.ended.steps <= 218);
    }
    Ok(())
}
