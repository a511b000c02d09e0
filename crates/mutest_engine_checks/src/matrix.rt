//! Runs in which all tests that detect a mutant are asked for.

use crate::calls::call;
use crate::history::{AGAIN, FIRST, Told, run_with};
use mt_edge::MemTree;
use sample_classes::{A, T};
use std::sync::Wait;
use std::test::Fail;
use std::thread::Threads;

// The one mutant that two tests detect, with its state and its cause, which are by the first.
const KILLERS: &str =
    r#"@1:NEGATE_CONDITIONALS","killedBy":["T.neg","T.zero"],"location":{"end":{"column":2,"line":3},"start":{"column":1,"line":3}},"mutatorName":"NEGATE_CONDITIONALS","status":"Killed","statusReason":"java.lang.AssertionError"}"#;

const HISTORY_AND_MATRIX: [&str; 3] = ["--history", "old.mth", "--matrix"];

const ALL_AGAIN: &str =
    "mutants 6 killed 4 survived 2 no_coverage 0 timed_out 0 non_viable 0 errors 0 reused 14\n";

// A run of six mutants and two tests, with further options.
fn first(rt: &(impl Threads + Wait + Sync + AllocGlobal), options: &[&str]) -> Result<Told, Fail> {
    let files = [("c/A.class", A.as_slice()), ("t/T.class", T.as_slice())];
    run_with(rt, &files, options, &[])
}

// The same where a history is held at `old.mth`.
fn again(
    rt: &(impl Threads + Wait + Sync + AllocGlobal),
    history: &[u8],
    options: &[&str],
) -> Result<Told, Fail> {
    let files = [
        ("c/A.class", A.as_slice()),
        ("t/T.class", T.as_slice()),
        ("old.mth", history),
    ];
    run_with(rt, &files, options, &[])
}

#[test]
fn all_tests_that_kill_a_mutant_are_told(rt: HostRuntime) -> Result<(), Fail> {
    let usual = first(&rt, &[])?;
    for workers in ["1", "2", "8", "64"] {
        let told = first(&rt, &["--matrix", "--workers", workers])?;
        // All fourteen runs are needed, also with more workers.
        assert!(rt; told.ended.is(0, FIRST, 218));
        // No other mutant has another killer.
        assert!(rt;
            told.report
                .as_slice()
                .windows(KILLERS.len())
                .any(|part| part == KILLERS.as_bytes())
        );
        assert_eq!(rt; told.report.len(), usual.report.len().saturating_add(9));
        let same = again(&rt, told.history.as_slice(), &HISTORY_AND_MATRIX)?;
        assert!(rt; same.ended.is(0, ALL_AGAIN, 0));
        assert_eq!(rt; same.report.as_slice(), told.report.as_slice());
        assert_eq!(rt; same.history.as_slice(), told.history.as_slice());
    }
    Ok(())
}

#[test]
fn a_history_serves_with_the_flag_and_without(rt: HostRuntime) -> Result<(), Fail> {
    let usual = first(&rt, &[])?;
    let all = again(&rt, usual.history.as_slice(), &HISTORY_AND_MATRIX)?;
    assert!(rt; all.ended.is(0, AGAIN, 30));
    let old = again(&rt, all.history.as_slice(), &["--history", "old.mth"])?;
    assert!(rt; old.ended.is(0, AGAIN, 0));
    assert_eq!(rt; old.report.as_slice(), usual.report.as_slice());
    assert_eq!(rt; old.history.as_slice(), usual.history.as_slice());
    Ok(())
}

#[test]
fn the_flag_has_no_value_and_stands_once(rt: HostRuntime) -> Result<(), Fail> {
    let calls: [&[&str]; 4] = [
        &["--matrix=true"],
        &["--matrix="],
        &["--matrix", "--matrix"],
        &["--matrix", "true"],
    ];
    for options in calls {
        let told = first(&rt, options)?;
        assert!(rt; told.ended.is(2, "mutest: Usage\n", 0));
    }
    Ok(())
}

#[test]
fn a_suite_that_is_made_has_one_killer_a_mutant(rt: HostRuntime) -> Result<(), Fail> {
    let mut tree = MemTree::new(rt.alloc(), Vec::new(rt.alloc()), Vec::new(rt.alloc()))?;
    let told = call(&rt, &["generate", "--matrix", "50"], &mut tree, &[])?;
    assert!(rt;
        told.is(
            0,
            "mutants 200 killed 99 survived 1 no_coverage 100 timed_out 0 non_viable 0 errors 0 reused 0\n",
            2_650
        )
    );
    Ok(())
}
