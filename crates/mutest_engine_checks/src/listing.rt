//! Class files that are listed.

use crate::calls::{call, damaged};
use class_model::Bytes;
use mt_edge::MemTree;
use sample_classes::{A, A_BARE, T};
use std::alloc::Global;
use std::sync::Wait;
use std::test::Fail;
use std::thread::Threads;

const LIST: [&str; 2] = ["list", "A.class"];

// Whether a call ends so where the tree holds these bytes at A.class.
fn ends(
    rt: &(impl Threads + Wait + Sync + AllocGlobal),
    words: &[&str],
    bytes: &[u8],
    tree_fails: &[u64],
    sink_fails: &[u64],
    status: i32,
    text: &str,
) -> Result<bool, Fail> {
    let alloc = rt.alloc();
    let mut files = Vec::new(alloc);
    files.push((
        String::from_str(alloc, "A.class")?,
        Bytes::from_slice(alloc, bytes)?,
    ))?;
    let mut tree = MemTree::new(alloc, files, tree_fails.to_vec(alloc)?)?;
    let told = call(rt, words, &mut tree, sink_fails)?;
    Ok(told.is(status, text, 0))
}

#[test]
fn the_mutants_of_a_class_are_listed(rt: HostRuntime) -> Result<(), Fail> {
    let lines =
        "A.f(I)Z@1:CONDITIONALS_BOUNDARY\nA.f(I)Z@1:NEGATE_CONDITIONALS\nA.f(I)Z@3:FALSE_RETURNS\nA.f(I)Z@3:TRUE_RETURNS\nA.f(I)Z@5:FALSE_RETURNS\nA.f(I)Z@5:TRUE_RETURNS\n";
    assert!(rt; ends(&rt, &LIST, &A_BARE, &[], &[], 0, lines)?);
    assert!(rt; ends(&rt, &LIST, &A, &[], &[], 0, lines)?);
    // A jump that compares for equality has no boundary.
    let equal = damaged(rt.alloc(), 126, 0x99)?;
    let lines =
        "A.f(I)Z@1:NEGATE_CONDITIONALS\nA.f(I)Z@3:FALSE_RETURNS\nA.f(I)Z@3:TRUE_RETURNS\nA.f(I)Z@5:FALSE_RETURNS\nA.f(I)Z@5:TRUE_RETURNS\n";
    assert!(rt; ends(&rt, &LIST, equal.as_slice(), &[], &[], 0, lines)?);
    Ok(())
}

#[test]
fn a_class_of_tests_is_read(rt: HostRuntime) -> Result<(), Fail> {
    // The constructor's call of another constructor is no call that may go.
    let lines = "T.neg()V@2:VOID_METHOD_CALLS\nT.zero()V@2:VOID_METHOD_CALLS\n";
    assert!(rt; ends(&rt, &LIST, &T, &[], &[], 0, lines)?);
    Ok(())
}

#[test]
fn other_words_are_refused(rt: HostRuntime) -> Result<(), Fail> {
    let none: [&str; 0] = [];
    let calls: [&[&str]; 6] = [
        &none,
        &["list"],
        &["list", ""],
        &["list", "--help"],
        &["lists", "A.class"],
        &["list", "A.class", "A.class"],
    ];
    for words in calls {
        assert!(rt; ends(&rt, words, &A, &[], &[], 2, "mutest: Usage\n")?);
    }
    Ok(())
}

#[test]
fn faults_of_the_outside_are_told(rt: HostRuntime) -> Result<(), Fail> {
    let line = "mutest: NotFound B.class\n";
    assert!(rt; ends(&rt, &["list", "B.class"], &A, &[], &[], 3, line)?);
    let line = "mutest: ReadFault\n";
    assert!(rt; ends(&rt, &LIST, &A, &[0], &[], 10, line)?);
    let line = "mutest: WriteFault output\n";
    assert!(rt; ends(&rt, &LIST, &A, &[], &[0], 11, line)?);
    Ok(())
}

#[test]
fn damaged_files_are_refused_at_their_place(rt: HostRuntime) -> Result<(), Fail> {
    let cuts: [(usize, &str); 4] = [
        (0, "mutest: BadClass A.class 3 0\n"),
        (3, "mutest: BadClass A.class 3 0\n"),
        (9, "mutest: BadClass A.class 3 8\n"),
        (159, "mutest: BadClass A.class 3 158\n"),
    ];
    for (length, text) in cuts {
        let cut = &A[..length.min(160)];
        assert!(rt; ends(&rt, &LIST, cut, &[], &[], 5, text)?);
    }
    let puts: [(usize, u8, i32, &str); 5] = [
        // An item that crosses the end of Code alone is named by Code, not by the table inside it.
        (116, 0x28, 5, "mutest: BadClass A.class 8 111\n"),
        (116, 0x1d, 5, "mutest: BadClass A.class 8 111\n"),
        (129, 0x12, 5, "mutest: BadClass A.class 6 130\n"),
        (7, 0x35, 5, "mutest: BadClass A.class 18 53\n"),
        (0, 0xcb, 5, "mutest: BadClass A.class 17 0\n"),
    ];
    for (at, byte, status, text) in puts {
        let bytes = damaged(rt.alloc(), at, byte)?;
        assert!(rt; ends(&rt, &LIST, bytes.as_slice(), &[], &[], status, text)?);
    }
    let mut longer = A.to_vec(rt.alloc())?;
    longer.push(0)?;
    let line = "mutest: BadClass A.class 19 160\n";
    assert!(rt; ends(&rt, &LIST, longer.as_slice(), &[], &[], 5, line)?);
    Ok(())
}

#[test]
fn a_file_past_the_limit_is_refused_unread(rt: HostRuntime) -> Result<(), Fail> {
    // Reading it would fail.
    let bytes = vec![in rt.alloc(); 0u8; 4_194_305]?;
    let line = "mutest: TooMany class 4194305\n";
    assert!(rt; ends(&rt, &LIST, bytes.as_slice(), &[0], &[], 12, line)?);
    let most = vec![in rt.alloc(); 0u8; 4_194_304]?;
    let line = "mutest: BadClass A.class 17 0\n";
    assert!(rt; ends(&rt, &LIST, most.as_slice(), &[], &[], 5, line)?);
    Ok(())
}
