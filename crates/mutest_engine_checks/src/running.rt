//! Suites: what `run` tells, writes and counts.

use crate::calls::{Ended, call, damaged};
use crate::history::FIRST;
use class_model::Bytes;
use mt_edge::MemTree;
use mutest_engine::{Halt, Refusal, load_suite};
use sample_classes::{A, T};
use std::alloc::Global;
use std::sync::Wait;
use std::test::Fail;
use std::thread::Threads;

// The second byte of the index by which `neg` names assertTrue; that of assertFalse is 23.
const NEG_ASSERTS: usize = 306;

const WORDS: [&str; 9] = [
    "run",
    "--classes",
    "c/",
    "--tests",
    "t",
    "--report",
    "r.json",
    "--new-history",
    "new.mth",
];

// A tree of some files, each with the bytes of A or T.
fn held(alloc: Global, paths: &[(&str, bool)]) -> Result<MemTree, Fail> {
    let mut files = Vec::new(alloc);
    for (path, is_test) in paths {
        let bytes = if *is_test { T.as_slice() } else { A.as_slice() };
        files.push((
            String::from_str(alloc, path)?,
            Bytes::from_slice(alloc, bytes)?,
        ))?;
    }
    Ok(MemTree::new(alloc, files, Vec::new(alloc))?)
}

#[test]
fn the_classes_of_two_folders_are_loaded(rt: HostRuntime) -> Result<(), Fail> {
    let paths = [
        ("t/T.class", true),
        ("c/x/B.class", false),
        ("c/A.class", false),
        ("c/A.txt", true),
    ];
    let mut tree = held(rt.alloc(), &paths)?;
    match load_suite(rt.alloc(), &mut tree, "c", "t") {
        Ok(suite) => {
            assert_eq!(rt; suite.classes.len(), 2);
            assert_eq!(rt; suite.tests.len(), 1);
        }
        Err(_) => assert!(rt; false, "both folders hold classes"),
    }
    let absent = load_suite(rt.alloc(), &mut tree, "c", "d");
    match &absent {
        Err(Halt::Refused(Refusal::NotFound { path })) => assert_eq!(rt;
            path.as_slice(),
            b"d".as_slice()
        ),
        _ => assert!(rt; false, "d holds nothing"),
    }
    Ok(())
}

// A tree with a class and a class of tests, some of whose calls fail.
fn suite(alloc: Global, class: &[u8], test: &[u8], fails: &[u64]) -> Result<MemTree, Fail> {
    let mut files = Vec::new(alloc);
    files.push((
        String::from_str(alloc, "c/A.class")?,
        Bytes::from_slice(alloc, class)?,
    ))?;
    files.push((
        String::from_str(alloc, "t/T.class")?,
        Bytes::from_slice(alloc, test)?,
    ))?;
    Ok(MemTree::new(alloc, files, fails.to_vec(alloc)?)?)
}

// What `run` tells of a class and a class of tests.
fn run_of(
    rt: &(impl Threads + Wait + Sync + AllocGlobal),
    class: &[u8],
    test: &[u8],
    fails: &[u64],
) -> Result<Ended, Fail> {
    let alloc = rt.alloc();
    let mut tree = suite(alloc, class, test, fails)?;
    call(rt, &WORDS, &mut tree, &[])
}

#[test]
fn tests_run_until_one_detects_the_mutant(rt: HostRuntime) -> Result<(), Fail> {
    let mut tree = suite(rt.alloc(), &A, &T, &[])?;
    let told = call(&rt, &WORDS, &mut tree, &[])?;
    // Of fourteen runs two aren't needed, behind one that detects its mutant. Each takes 15 steps,
    // and 2 more where another value is returned.
    assert!(rt; told.is(0, FIRST, 188));
    let report =
        br#"{"files":{"A.java":{"language":"java","mutants":[{"coveredBy":["T.neg","T.zero"],"id":"A.f(I)Z@1:CONDITIONALS_BOUNDARY","killedBy":["T.zero"],"location":{"end":{"column":2,"line":3},"start":{"column":1,"line":3}},"mutatorName":"CONDITIONALS_BOUNDARY","status":"Killed","statusReason":"java.lang.AssertionError"},{"coveredBy":["T.neg","T.zero"],"id":"A.f(I)Z@1:NEGATE_CONDITIONALS","killedBy":["T.neg"],"location":{"end":{"column":2,"line":3},"start":{"column":1,"line":3}},"mutatorName":"NEGATE_CONDITIONALS","status":"Killed","statusReason":"java.lang.AssertionError"},{"coveredBy":["T.neg","T.zero"],"id":"A.f(I)Z@3:FALSE_RETURNS","killedBy":["T.neg"],"location":{"end":{"column":2,"line":3},"start":{"column":1,"line":3}},"mutatorName":"FALSE_RETURNS","status":"Killed","statusReason":"java.lang.AssertionError"},{"coveredBy":["T.neg","T.zero"],"id":"A.f(I)Z@3:TRUE_RETURNS","location":{"end":{"column":2,"line":3},"start":{"column":1,"line":3}},"mutatorName":"TRUE_RETURNS","status":"Survived"},{"coveredBy":["T.neg","T.zero"],"id":"A.f(I)Z@5:FALSE_RETURNS","location":{"end":{"column":2,"line":3},"start":{"column":1,"line":3}},"mutatorName":"FALSE_RETURNS","status":"Survived"},{"coveredBy":["T.neg","T.zero"],"id":"A.f(I)Z@5:TRUE_RETURNS","killedBy":["T.zero"],"location":{"end":{"column":2,"line":3},"start":{"column":1,"line":3}},"mutatorName":"TRUE_RETURNS","status":"Killed","statusReason":"java.lang.AssertionError"}],"source":""}},"schemaVersion":"1","testFiles":{"T.java":{"tests":[{"id":"T.neg","name":"neg"},{"id":"T.zero","name":"zero"}]}},"thresholds":{"high":80,"low":60}}"#.as_slice();
    match tree.held("r.json") {
        Some(written) => assert_eq!(rt; written, report),
        None => assert!(rt; false, "the report is written"),
    }
    Ok(())
}

#[test]
fn a_report_that_cannot_be_replaced_is_told(rt: HostRuntime) -> Result<(), Fail> {
    // Two folders are listed before, and two files are read.
    let told = run_of(&rt, &A, &T, &[4])?;
    assert!(rt; told.is(11, "mutest: WriteFault report\n", 188));
    Ok(())
}

#[test]
fn options_stand_in_any_order(rt: HostRuntime) -> Result<(), Fail> {
    let mut tree = suite(rt.alloc(), &A, &T, &[])?;
    let words = [
        "run",
        "--report",
        "r.json",
        "--new-history=new.mth",
        "--tests",
        "t",
        "--classes",
        "c",
    ];
    let told = call(&rt, &words, &mut tree, &[])?;
    assert!(rt; told.is(0, FIRST, 188));
    assert!(rt; tree.held("r.json").is_some());
    Ok(())
}

// The words of `run` on two folders, with these options.
fn words_with<'a>(alloc: Global, options: &[&'a str]) -> Result<Vec<&'a str>, Fail> {
    let mut words = Vec::new(alloc);
    for word in ["run", "--classes", "c", "--tests", "t"] {
        words.push(word)?;
    }
    for word in options {
        words.push(*word)?;
    }
    Ok(words)
}

#[test]
fn other_options_are_refused(rt: HostRuntime) -> Result<(), Fail> {
    // The new history is missing, one has no value, a path is written twice, a history is where the
    // report goes, workers are too many.
    let calls: [&[&str]; 8] = [
        &[],
        &["--report", "r"],
        &["--report", "r", "--new-history"],
        &["--report", "r", "--new-history", "r"],
        &["--report", "r", "--new-history", "h", "--history", "r"],
        &["--report", "r", "--new-history", "h", "--workers", "65"],
        &["--report", "r", "--new-history", "h", "--workers", "0"],
        &["--report", "r", "--new-history", "h", "--class", "c"],
    ];
    for options in calls {
        let words = words_with(rt.alloc(), options)?;
        let mut tree = suite(rt.alloc(), &A, &T, &[])?;
        let told = call(&rt, words.as_slice(), &mut tree, &[])?;
        assert!(rt; told.is(2, "mutest: Usage\n", 0));
    }
    Ok(())
}

#[test]
fn archives_are_refused(rt: HostRuntime) -> Result<(), Fail> {
    let mut tree = suite(rt.alloc(), &A, &T, &[])?;
    let words = [
        "run",
        "--classes",
        "app.jar",
        "--tests",
        "t",
        "--report",
        "r.json",
        "--new-history",
        "new.mth",
    ];
    let told = call(&rt, &words, &mut tree, &[])?;
    assert!(rt; told.is(4, "mutest: Archive app.jar\n", 0));
    Ok(())
}

#[test]
fn a_test_that_fails_is_told(rt: HostRuntime) -> Result<(), Fail> {
    // `neg` asserts that `A.f(-1)` is false.
    let mut test = T.to_vec(rt.alloc())?;
    if test.len() > NEG_ASSERTS {
        test[NEG_ASSERTS] = 23;
    }
    let told = run_of(&rt, &A, test.as_slice(), &[])?;
    assert!(rt; told.is(8, "mutest: NotGreen T.neg Failed\n", told.steps));
    Ok(())
}

#[test]
fn refused_code_is_no_program(rt: HostRuntime) -> Result<(), Fail> {
    let refused = damaged(rt.alloc(), 132, 0xb1)?;
    let told = run_of(&rt, refused.as_slice(), &T, &[])?;
    assert!(rt; told.is(6, "mutest: BadProgram V11 A f(I)Z 5\n", 0));
    Ok(())
}

#[test]
fn two_classes_of_one_name_are_no_program(rt: HostRuntime) -> Result<(), Fail> {
    let told = run_of(&rt, &T, &T, &[])?;
    assert!(rt; told.is(6, "mutest: BadProgram 13 T\n", 0));
    Ok(())
}

// Bytes of T that are put there, and what is told of its tests.
const TESTS: [(&'static [(usize, u8)], &'static str); 2] = [
    // `neg` is static.
    (&[(279, 9)], "mutest: BadTest T neg()V B2\n"),
    // The annotation `Test` becomes `Rule`.
    (
        &[(217, b'R'), (218, b'u'), (219, b'l'), (220, b'e')],
        "mutest: RunnerUsed T\n",
    ),
];

#[test]
fn what_is_wrong_with_a_test_is_told(rt: HostRuntime) -> Result<(), Fail> {
    for (puts, text) in TESTS {
        let mut test = T.to_vec(rt.alloc())?;
        for (at, byte) in puts {
            if test.len() > *at {
                test[*at] = *byte;
            }
        }
        let told = run_of(&rt, &A, test.as_slice(), &[])?;
        assert!(rt; told.is(7, text, 0));
    }
    Ok(())
}

// A byte of A and one of T that are put there, and what is told of their supers.
const SUPERS: [(usize, u8, usize, u8, &str); 3] = [
    // The superclass of A is java/lang/Objecs.
    (35, b's', 240, 4, "mutest: BadProgram 14 A\n"),
    // The superclass of T is T.
    (35, b't', 240, 2, "mutest: BadProgram 15 T\n"),
    // The superclass of T is A, which is final.
    (92, 0x31, 240, 10, "mutest: BadProgram 16 T\n"),
];

#[test]
fn wrong_supers_are_no_program(rt: HostRuntime) -> Result<(), Fail> {
    for (in_class, class_byte, in_test, test_byte, text) in SUPERS {
        let class = damaged(rt.alloc(), in_class, class_byte)?;
        let mut test = T.to_vec(rt.alloc())?;
        if test.len() > in_test {
            test[in_test] = test_byte;
        }
        let told = run_of(&rt, class.as_slice(), test.as_slice(), &[])?;
        assert!(rt; told.is(6, text, 0));
    }
    Ok(())
}

#[test]
fn too_many_classes_are_told(rt: HostRuntime) -> Result<(), Fail> {
    let mut files = Vec::new(rt.alloc());
    for number in 0..20_000u32 {
        files.push((
            format!(in rt.alloc(); "c/{number}.class")?,
            Bytes::new(rt.alloc()),
        ))?;
    }
    files.push((
        String::from_str(rt.alloc(), "t/T.class")?,
        Bytes::new(rt.alloc()),
    ))?;
    let mut tree = MemTree::new(rt.alloc(), files, Vec::new(rt.alloc()))?;
    let told = call(&rt, &WORDS, &mut tree, &[])?;
    assert!(rt; told.is(12, "mutest: TooMany classes 20001\n", 0));
    Ok(())
}
