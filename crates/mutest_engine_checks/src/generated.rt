//! The main job on suites that are made.

use crate::calls::{Ended, call};
use mt_edge::MemTree;
use std::sync::Wait;
use std::test::Fail;
use std::thread::Threads;

const FIFTY: &str =
    "mutants 200 killed 99 survived 1 no_coverage 100 timed_out 0 non_viable 0 errors 0 reused 0\n";

const TWO_HUNDRED: &str =
    "mutants 800 killed 399 survived 1 no_coverage 400 timed_out 0 non_viable 0 errors 0 reused 0\n";

// What is told of a call on a tree that holds nothing and whose first call would fail.
fn told(rt: &(impl Threads + Wait + Sync + AllocGlobal), words: &[&str]) -> Result<Ended, Fail> {
    let alloc = rt.alloc();
    let mut fails = Vec::new(alloc);
    fails.push(0)?;
    let mut tree = MemTree::new(alloc, Vec::new(alloc), fails)?;
    call(rt, words, &mut tree, &[])
}

#[test]
fn a_suite_that_is_made_is_summed_up(rt: HostRuntime) -> Result<(), Fail> {
    // For each class 17 steps on it as it is, 17 and 19 on its mutants that a test reaches.
    let calls: [(&[&str], &str, u64); 3] = [
        (&["generate", "50"], FIFTY, 2_650),
        (&["generate", "--workers=8", "50"], FIFTY, 2_650),
        (&["generate", "200", "--workers", "4"], TWO_HUNDRED, 10_600),
    ];
    for (words, line, steps) in calls {
        let told = told(&rt, words)?;
        assert!(rt; told.is(0, line, steps));
    }
    Ok(())
}

#[test]
fn so_many_classes_as_there_may_be(rt: HostRuntime) -> Result<(), Fail> {
    let calls: [&[&str]; 5] = [
        &["generate"],
        &["generate", "0"],
        &["generate", "201"],
        &["generate", "50", "--workers", "65"],
        &["generate", "50", "--report", "r"],
    ];
    for words in calls {
        let told = told(&rt, words)?;
        assert!(rt; told.is(2, "mutest: Usage\n", 0));
    }
    Ok(())
}
