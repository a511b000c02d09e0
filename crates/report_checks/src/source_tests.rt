//! Sources that are read from a tree in memory.

use crate::{grouped, read_sources};
use class_model::{Bytes, Memory, Seq};
use mt_edge::MemTree;
use report_pieces::Group;
use report_sources::SourceFault;
use std::alloc::Global;
use std::test::Fail;

// A file for each of these keys, which are in byte order.
fn files_of(alloc: Global, keys: &[&str]) -> Result<Seq<Group>, Memory> {
    let mut texts = Vec::new(alloc);
    let mut numbers = Vec::new(alloc);
    let mut number = 0u32;
    for key in keys {
        texts.push(String::from_str(alloc, key)?)?;
        numbers.push(number)?;
        number = number.saturating_add(1);
    }
    grouped(alloc, texts.as_slice(), numbers.as_slice())
}

fn tree_of(alloc: Global, held: &[(&str, &[u8])], failing: &[u64]) -> Result<MemTree, Fail> {
    let mut files = Vec::new(alloc);
    for (path, bytes) in held {
        let path = String::from_str(alloc, path)?;
        files.push((path, Bytes::from_slice(alloc, bytes)?))?;
    }
    Ok(MemTree::new(alloc, files, failing.to_vec(alloc)?)?)
}

#[test]
fn a_key_that_is_not_listed_has_no_source(rt: HostRuntime) -> Result<(), Fail> {
    let alloc = rt.alloc();
    let held = [
        ("etc/passwd", b"root".as_slice()),
        ("src/p/A.java", b"class A {}".as_slice()),
        ("src/p/B.java", [0xFF].as_slice()),
        ("srcs/p/C.java", b"other".as_slice()),
    ];
    let mut tree = tree_of(alloc, held.as_slice(), [].as_slice())?;
    let keys = [
        "../etc/passwd",
        "/etc/passwd",
        "p/",
        "p/A.java",
        "p/B.java",
        "p/C.java",
    ];
    let files = files_of(alloc, keys.as_slice())?;
    let Ok(sources) = read_sources(alloc, &mut tree, "src", files.as_slice()) else {
        assert!(rt; false);
        return Ok(());
    };
    assert_eq!(rt; sources.len(), 6);
    for (number, source) in [
        (0, b"".as_slice()),
        (1, b"".as_slice()),
        (2, b"".as_slice()),
        (3, b"class A {}".as_slice()),
        (4, [0xFF].as_slice()),
        (5, b"".as_slice()),
    ] {
        match sources.get(number) {
            Some(read) => assert!(rt; read.as_slice() == source),
            None => assert!(rt; false),
        }
    }
    Ok(())
}

#[test]
fn a_call_that_fails_is_told(rt: HostRuntime) -> Result<(), Fail> {
    let alloc = rt.alloc();
    let held = [("s/A.java", b"class A {}".as_slice())];
    let files = files_of(alloc, ["A.java"].as_slice())?;
    for call in [0u64, 1] {
        let mut tree = tree_of(alloc, held.as_slice(), [call].as_slice())?;
        let read = read_sources(alloc, &mut tree, "s", files.as_slice());
        assert!(rt; matches!(read, Err(SourceFault::Failed)));
    }
    Ok(())
}
