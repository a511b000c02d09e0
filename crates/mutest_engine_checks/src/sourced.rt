//! Suites with a folder of sources: what `run` reads of it, and what it tells.

use crate::calls::call;
use crate::history::FIRST;
use class_model::Bytes;
use mt_edge::MemTree;
use sample_classes::{A, T};
use std::alloc::Global;
use std::test::Fail;

const WORDS: [&str; 11] = [
    "run",
    "--classes",
    "c",
    "--tests",
    "t",
    "--report",
    "r.json",
    "--new-history",
    "new.mth",
    "--sources",
    "s/",
];

// A tree with a class, a class of tests and the source of the class, some of whose calls fail.
fn suite(alloc: Global, source: Bytes, fails: &[u64]) -> Result<MemTree, Fail> {
    let mut files = Vec::new(alloc);
    files.push((
        String::from_str(alloc, "c/A.class")?,
        Bytes::from_slice(alloc, A.as_slice())?,
    ))?;
    files.push((
        String::from_str(alloc, "t/T.class")?,
        Bytes::from_slice(alloc, T.as_slice())?,
    ))?;
    files.push((String::from_str(alloc, "s/A.java")?, source))?;
    Ok(MemTree::new(alloc, files, fails.to_vec(alloc)?)?)
}

fn source(alloc: Global) -> Result<Bytes, Fail> {
    Ok(Bytes::from_slice(alloc, b"class A {}\n".as_slice())?)
}

#[test]
fn a_file_has_its_source(rt: HostRuntime) -> Result<(), Fail> {
    let mut tree = suite(rt.alloc(), source(rt.alloc())?, &[])?;
    let told = call(&rt, &WORDS, &mut tree, &[])?;
    assert!(rt; told.is(0, FIRST, 188));
    let end =
        br#"],"source":"class A {}\n"}},"schemaVersion":"1","testFiles":{"T.java":{"tests":[{"id":"T.neg","name":"neg"},{"id":"T.zero","name":"zero"}]}},"thresholds":{"high":80,"low":60}}"#.as_slice();
    match tree.held("r.json") {
        Some(written) => assert!(rt; written.ends_with(end)),
        None => assert!(rt; false, "the report is written"),
    }
    Ok(())
}

#[test]
fn a_folder_without_sources_is_no_fault(rt: HostRuntime) -> Result<(), Fail> {
    let mut tree = suite(rt.alloc(), source(rt.alloc())?, &[])?;
    let words = [
        "run",
        "--classes",
        "c",
        "--tests",
        "t",
        "--report",
        "r.json",
        "--new-history=new.mth",
        "--sources=none",
    ];
    let told = call(&rt, &words, &mut tree, &[])?;
    assert!(rt; told.is(0, FIRST, 188));
    Ok(())
}

#[test]
fn a_fault_at_the_sources_comes_behind_the_runs(rt: HostRuntime) -> Result<(), Fail> {
    // Two folders are listed before, and two files are read.
    for fails in [4u64, 5] {
        let mut tree = suite(rt.alloc(), source(rt.alloc())?, [fails].as_slice())?;
        let told = call(&rt, &WORDS, &mut tree, &[])?;
        assert!(rt; told.is(10, "mutest: ReadFault\n", 188));
        assert!(rt; tree.held("r.json").is_none());
    }
    Ok(())
}

#[test]
fn too_many_bytes_of_sources_are_told(rt: HostRuntime) -> Result<(), Fail> {
    let bytes = vec![in rt.alloc(); 32u8; 67_108_865]?;
    let mut tree = suite(rt.alloc(), Bytes::from_vec(bytes), &[])?;
    let told = call(&rt, &WORDS, &mut tree, &[])?;
    assert!(rt; told.is(12, "mutest: TooMany sources 67108865\n", 188));
    Ok(())
}

#[test]
fn an_archive_of_sources_is_refused(rt: HostRuntime) -> Result<(), Fail> {
    let mut tree = suite(rt.alloc(), source(rt.alloc())?, &[])?;
    let words = [
        "run",
        "--classes",
        "c",
        "--tests",
        "t",
        "--report",
        "r.json",
        "--new-history=new.mth",
        "--sources=src.zip/",
    ];
    let told = call(&rt, &words, &mut tree, &[])?;
    assert!(rt; told.is(4, "mutest: Archive src.zip\n", 0));
    Ok(())
}
