use crate::tree_calls::{Call, CallRow, answer, answers};
use mt_edge::{HostSink, HostTree, MemSink, MemTree, Meter, Sink, Tree};
use std::fs::Permissions;
use std::os::unix::fs::{MetadataExt, PermissionsExt, symlink};
use std::test::Fail;
use std::thread::Threads;
use std::{env, fs, process, thread};

// Calls of a tree that holds nothing.
const CALLS: [CallRow; 14] = [
    (Call::List, "", "", ""),
    (Call::Length, "/below/A.class", "", "nothing"),
    (Call::Read, "/below/A.class", "", "nothing"),
    (Call::Replace, "/below/A.class", "old", "done"),
    (Call::Replace, "/below/A.class", "new", "done"),
    (Call::Replace, "/z.txt", "", "done"),
    (Call::Replace, "/below/B.class", "second", "done"),
    (Call::List, "", "", "/below/A.class /below/B.class /z.txt "),
    (Call::List, "/below", "", "/A.class /B.class "),
    (Call::List, "/bel", "", ""),
    (Call::Read, "/below/A.class", "", "new"),
    (Call::Length, "/below/B.class", "", "6"),
    (Call::Read, "/z.txt", "", ""),
    (Call::Length, "/z.txt", "", "0"),
];

// A folder of one test of this process alone, which isn't there yet.
fn own_folder(rt: &HostRuntime, test: &str) -> Result<String, Fail> {
    let temp = env::temp_dir(rt)?;
    let number = process::id(rt.process());
    Ok(format!(in rt.alloc(); "{}/mutest-{test}-{number}", temp.as_path().as_str())?)
}

// The number of the first call that one of two trees answers otherwise, the one in memory and the
// real one; how many there are, where none does.
fn first_other_of_both(rt: &HostRuntime, folder: &str, rows: &[CallRow]) -> Result<usize, Fail> {
    let below = format!(in rt.alloc(); "{folder}/below")?;
    let mut memory = MemTree::new(rt.alloc(), Vec::new(rt.alloc()), Vec::new(rt.alloc()))?;
    let mut real = HostTree::new(rt);
    for i in 0..rows.len() {
        if !answers(rt.alloc(), &mut memory, folder, &rows[i])? {
            return Ok(i);
        }
        if matches!(rows[i].0, Call::Replace) {
            fs::create_dir_all(rt, below.as_str())?;
        }
        if !answers(rt.alloc(), &mut real, folder, &rows[i])? {
            return Ok(i);
        }
    }
    Ok(rows.len())
}

fn other_of_calls(rt: &HostRuntime, folder: &str) -> Result<usize, Fail> {
    first_other_of_both(rt, folder, &CALLS)
}

#[test]
fn both_trees_list_read_and_replace(rt: HostRuntime) -> Result<(), Fail> {
    let folder = own_folder(&rt, "both")?;
    assert_eq!(rt; other_of_calls(&rt, folder.as_str())?, 14);
    fs::remove_dir_all(&rt, folder.as_str())?;
    Ok(())
}

type LinkRow = (&'static str, &'static str);

// Links that are made in the folder, by what they lead to and by their names.
const LINKS: [LinkRow; 8] = [
    ("kept/A.class", "/link.class"),
    ("kept", "/again"),
    (".", "/loop"),
    ("itself", "/itself"),
    ("missing", "/nowhere"),
    ("/dev/null", "/null"),
    ("/", "/outside"),
    ("theirs", "/report.mutest-0"),
];

// Calls of the real tree, as above: with these links, the folder `kept`, somebody else's file
// `theirs`, and a file that an earlier run left beside the report.
const CAREFUL_CALLS: [CallRow; 36] = [
    (Call::Replace, "/link.class", "newer", "done"),
    (Call::Replace, "/link.class", "new", "done"),
    (Call::Length, "/link.class", "", "3"),
    (Call::Length, "/null", "", "0"),
    (Call::Length, "/nowhere", "", "nothing"),
    (Call::Length, "/itself", "", "nothing"),
    (Call::Length, "/kept/A.class/below", "", "nothing"),
    // Each real folder once, and neither the device nor what leads nowhere or out of the folder.
    (
        Call::List,
        "",
        "",
        "/again/A.class /link.class /report.mutest-0 /report.mutest-1 /theirs ",
    ),
    (
        Call::List,
        "/loop",
        "",
        "/again/A.class /link.class /report.mutest-0 /report.mutest-1 /theirs ",
    ),
    (Call::List, "/again", "", "/A.class "),
    (Call::List, "/kept/A.class", "", ""),
    (Call::Read, "/kept/A.class/below", "", "nothing"),
    (Call::Read, "/nowhere", "", "nothing"),
    (Call::Read, "/itself", "", "nothing"),
    // A folder is no file, and at such a name there can be none.
    (Call::Length, "/kept", "", "nothing"),
    (Call::Read, "/kept", "", "nothing"),
    (Call::List, "/zero\0byte", "", ""),
    (Call::Length, "/zero\0byte", "", "nothing"),
    (Call::Read, "/zero\0byte", "", "nothing"),
    (Call::Replace, "/zero\0byte", "", "failed"),
    (Call::Replace, "/null", "bytes", "done"),
    (Call::Replace, "/kept", "", "failed"),
    (Call::Replace, "/nowhere", "", "failed"),
    (Call::Replace, "/none/A.class", "", "failed"),
    (Call::Replace, "/kept/A.class/below", "", "failed"),
    // What was left serves for the report; what a link leads to is kept.
    (Call::Replace, "/report", "report", "done"),
    (Call::Read, "/report.mutest-0", "", "theirs"),
    (Call::Read, "/report.mutest-1", "", "nothing"),
    // One file isn't replaced by two paths, nor a class that was read.
    (Call::Replace, "/./report", "history", "failed"),
    (Call::Replace, "/loop/report", "history", "failed"),
    (Call::Replace, "/report", "again", "done"),
    (Call::Read, "/report", "", "again"),
    (Call::Replace, "/report", "once more", "done"),
    (Call::Replace, "/kept/A.class", "report", "failed"),
    (Call::Read, "/kept/A.class", "", "new"),
    (Call::Replace, "/link.class", "report", "failed"),
];

fn link_all(rt: &HostRuntime, folder: &str, rows: &[LinkRow]) -> Result<(), Fail> {
    for row in rows {
        let (original, name) = *row;
        symlink(rt, original, format!(in rt.alloc(); "{folder}{name}")?)?;
    }
    Ok(())
}

fn make_links(rt: &HostRuntime, folder: &str) -> Result<(), Fail> {
    link_all(rt, folder, &LINKS)
}

// A folder in which all that is asked of care stands: links, a file that only its owner may read,
// somebody else's file, and a file by the second name that a new one beside the report is given.
fn make_careful(rt: &HostRuntime, folder: &str) -> Result<(), Fail> {
    let kept = format!(in rt.alloc(); "{folder}/kept/A.class")?;
    let left = format!(in rt.alloc(); "{folder}/report.mutest-1")?;
    fs::create_dir_all(rt, format!(in rt.alloc(); "{folder}/kept")?)?;
    fs::write(rt, format!(in rt.alloc(); "{folder}/theirs")?, "theirs")?;
    fs::write(rt, left.as_str(), "left")?;
    fs::write(rt, kept.as_str(), "first")?;
    fs::set_permissions(rt, kept.as_str(), Permissions::from_mode(0o600))?;
    make_links(rt, folder)
}

// The number of the first call that the real tree answers otherwise; how many there are, where it
// answers none so.
fn first_other(rt: &HostRuntime, folder: &str, rows: &[CallRow]) -> Result<usize, Fail> {
    let mut tree = HostTree::new(rt);
    for i in 0..rows.len() {
        if !answers(rt.alloc(), &mut tree, folder, &rows[i])? {
            return Ok(i);
        }
    }
    Ok(rows.len())
}

fn other_of_careful_calls(rt: &HostRuntime, folder: &str) -> Result<usize, Fail> {
    first_other(rt, folder, &CAREFUL_CALLS)
}

// The number of the first of these names at which no link stands; how many there are, where at
// each one does.
fn first_unlinked(rt: &HostRuntime, folder: &str, rows: &[LinkRow]) -> Result<usize, Fail> {
    for i in 0..rows.len() {
        let (_, name) = rows[i];
        let path = format!(in rt.alloc(); "{folder}{name}")?;
        if !fs::symlink_metadata(rt, path.as_str())?.is_symlink() {
            return Ok(i);
        }
    }
    Ok(rows.len())
}

fn unlinked(rt: &HostRuntime, folder: &str) -> Result<usize, Fail> {
    first_unlinked(rt, folder, &LINKS)
}

#[test]
fn the_real_tree_takes_care(rt: HostRuntime) -> Result<(), Fail> {
    let folder = own_folder(&rt, "care")?;
    make_careful(&rt, folder.as_str())?;
    assert_eq!(rt; other_of_careful_calls(&rt, folder.as_str())?, 36);
    assert_eq!(rt; unlinked(&rt, folder.as_str())?, 8);
    let kept = format!(in rt.alloc(); "{folder}/kept/A.class")?;
    let mode = fs::metadata(&rt, kept.as_str())?.permissions().mode();
    assert_eq!(rt; mode & 0o777, 0o600);
    fs::remove_dir_all(&rt, folder.as_str())?;
    Ok(())
}

// Calls with a folder that nobody may enter, and what each answers; for root, who may enter all,
// the other.
const CLOSED_CALLS: [(Call, &str, &str, &str, &str); 4] = [
    (Call::List, "", "", "failed", "/closed/A.class "),
    (Call::Length, "/closed/A.class", "", "failed", "5"),
    (Call::Read, "/closed/A.class", "", "failed", "bytes"),
    (Call::Replace, "/closed/B.class", "more", "failed", "done"),
];

#[test]
fn what_may_not_be_entered_is_a_fault(rt: HostRuntime) -> Result<(), Fail> {
    let folder = own_folder(&rt, "closed")?;
    let closed = format!(in rt.alloc(); "{folder}/closed")?;
    fs::create_dir_all(&rt, closed.as_str())?;
    fs::write(
        &rt,
        format!(in rt.alloc(); "{folder}/closed/A.class")?,
        "bytes",
    )?;
    fs::set_permissions(&rt, closed.as_str(), Permissions::from_mode(0o000))?;
    let is_root = fs::metadata(&rt, closed.as_str())?.uid() == 0;
    let mut tree = HostTree::new(&rt);
    for (call, name, bytes, wanted, for_root) in CLOSED_CALLS {
        let path = format!(in rt.alloc(); "{folder}{name}")?;
        let said = answer(rt.alloc(), &mut tree, call, path.as_str(), bytes)?;
        if is_root {
            assert_eq!(rt; said.as_str(), for_root, "at {name}");
        } else {
            assert_eq!(rt; said.as_str(), wanted, "at {name}");
        }
    }
    fs::set_permissions(&rt, closed.as_str(), Permissions::from_mode(0o700))?;
    fs::remove_dir_all(&rt, folder.as_str())?;
    Ok(())
}

// What one of two runs writes, and how often it did.
#[derive(Drop)]
struct Writer {
    text: &'static str,
    done: u32,
}

// Each replaces the file twenty times, both at once.
fn replace_at_once<R: Threads + Sync>(
    rt: &R,
    files: &HostRuntime,
    path: &str,
    writers: &mut [Writer],
) {
    thread::for_each_mut(
        rt,
        writers,
        2,
        &|_, writer: &mut Writer| {
            let mut tree = HostTree::new(files);
            for _ in 0..20 {
                if tree.replace(path, writer.text.as_bytes()).is_ok() {
                    writer.done = writer.done.saturating_add(1);
                }
            }
        },
    );
}

#[test]
fn two_runs_at_once_leave_one_whole_file(rt: HostRuntime) -> Result<(), Fail> {
    let folder = own_folder(&rt, "twice")?;
    let path = format!(in rt.alloc(); "{folder}/report")?;
    fs::create_dir_all(&rt, folder.as_str())?;
    let mut writers = [
        Writer {
            text: "one",
            done: 0,
        },
        Writer {
            text: "another",
            done: 0,
        },
    ];
    replace_at_once(&rt, &rt, path.as_str(), &mut writers);
    for writer in &writers {
        assert_eq!(rt; writer.done, 20);
    }
    let mut tree = HostTree::new(&rt);
    let listed = answer(rt.alloc(), &mut tree, Call::List, folder.as_str(), "")?;
    assert_eq!(rt; listed.as_str(), "/report ");
    let read = answer(rt.alloc(), &mut tree, Call::Read, path.as_str(), "")?;
    assert!(rt; read.as_str() == "one" || read.as_str() == "another");
    fs::remove_dir_all(&rt, folder.as_str())?;
    Ok(())
}

#[test]
fn no_device_is_replaced(rt: HostRuntime) -> Result<(), Fail> {
    let mut tree = HostTree::new(&rt);
    for (path, wanted) in [
        ("/dev/null", "done"),
        ("/dev/full", "failed"),
        ("/dev", "failed"),
    ] {
        let said = answer(rt.alloc(), &mut tree, Call::Replace, path, "bytes")?;
        assert_eq!(rt; said.as_str(), wanted, "at {path}");
    }
    Ok(())
}

// The third call of the tree and the second one of the sink are to fail. That a length is asked is
// no such call.
#[test]
fn what_is_in_memory_fails_as_it_is_told(rt: HostRuntime) -> Result<(), Fail> {
    let failing = vec![in rt.alloc(); 2; 1]?;
    let mut tree = MemTree::new(rt.alloc(), Vec::new(rt.alloc()), failing)?;
    for wanted in ["done", "done", "failed", "done"] {
        let length = answer(rt.alloc(), &mut tree, Call::Length, "b", "")?;
        assert_eq!(rt; length.as_str(), "nothing");
        let said = answer(rt.alloc(), &mut tree, Call::Replace, "a", wanted)?;
        assert_eq!(rt; said.as_str(), wanted);
    }
    assert_eq!(rt; tree.held("a"), Some(b"done".as_slice()));
    assert_eq!(rt; tree.held("b"), None);
    let mut sink = MemSink::new(rt.alloc(), vec![in rt.alloc(); 1; 1]?);
    for (piece, is_put) in [("one ", true), ("lost", false), ("two", true)] {
        assert_eq!(rt; sink.put(piece.as_bytes()).is_ok(), is_put, "{piece}");
    }
    assert_eq!(rt; sink.bytes(), b"one two".as_slice());
    Ok(())
}

#[test]
fn parts_count_into_their_meter(rt: HostRuntime) -> Result<(), Fail> {
    let mut meter = Meter::new();
    let mut part = meter.split();
    part.tick();
    part.tick();
    let counted = part.count();
    meter.join(part);
    assert_eq!(rt; counted, 2);
    assert_eq!(rt; meter.count(), 2);
    Ok(())
}

#[test]
fn the_real_sink_writes_to_the_output(rt: HostRuntime) -> Result<(), Fail> {
    let mut sink = HostSink::new(&rt);
    sink.put(b"a line of the sink's test\n")?;
    Ok(())
}
