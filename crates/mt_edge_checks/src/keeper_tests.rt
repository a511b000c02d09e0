use crate::keeper_calls::{KeeperCall, KeeperRow, first_other_call};
use class_model::Bytes;
use mt_edge::{HostKeeper, Keeper, MemKeeper};
use std::fs::OpenOptions;
use std::io::Write;
use std::os::unix::fs::symlink;
use std::test::Fail;
use std::{env, fs, process};

// Calls of a keeper that keeps nothing yet.
const CALLS: [KeeperRow; 8] = [
    (KeeperCall::Load, "", ""),
    (KeeperCall::Append, "one ", "done"),
    (KeeperCall::Sync, "", "done"),
    (KeeperCall::Append, "two", "done"),
    (KeeperCall::Load, "", "one two"),
    (KeeperCall::Append, "!", "done"),
    (KeeperCall::Sync, "", "done"),
    (KeeperCall::Load, "", "one two!"),
];

// Its calls 0, 2, 4 and 7 are to fail.
const FAILING_CALLS: [KeeperRow; 9] = [
    (KeeperCall::Load, "", "failed"),
    (KeeperCall::Load, "", "kept "),
    (KeeperCall::Append, "lost", "failed"),
    (KeeperCall::Append, "more", "done"),
    (KeeperCall::Sync, "", "failed"),
    (KeeperCall::Sync, "", "done"),
    (KeeperCall::Load, "", "kept more"),
    (KeeperCall::Append, "lost", "failed"),
    (KeeperCall::Load, "", "kept more"),
];

// Calls of a keeper of what is no file, or can't be one.
const REFUSED_CALLS: [KeeperRow; 4] = [
    (KeeperCall::Append, "lost", "failed"),
    (KeeperCall::Load, "", "failed"),
    (KeeperCall::Append, "lost", "failed"),
    (KeeperCall::Sync, "", "failed"),
];

const FIRST_CALLS: [KeeperRow; 4] = [
    (KeeperCall::Append, "lost", "failed"),
    (KeeperCall::Load, "", ""),
    (KeeperCall::Append, "one", "done"),
    (KeeperCall::Sync, "", "done"),
];

// Calls once somebody else has appended `, two` to the file.
const CHANGED_CALLS: [KeeperRow; 6] = [
    (KeeperCall::Append, "lost", "failed"),
    (KeeperCall::Sync, "", "failed"),
    (KeeperCall::Append, "lost", "failed"),
    (KeeperCall::Load, "", "one, two"),
    (KeeperCall::Append, ", three", "done"),
    (KeeperCall::Sync, "", "done"),
];

// Calls once somebody else has removed it.
const REMOVED_CALLS: [KeeperRow; 3] = [
    (KeeperCall::Append, "lost", "failed"),
    (KeeperCall::Sync, "", "failed"),
    (KeeperCall::Load, "", "failed"),
];

// A folder of one test of this process alone.
fn own_folder(rt: &HostRuntime, test: &str) -> Result<String, Fail> {
    let temp = env::temp_dir(rt)?;
    let number = process::id(rt.process());
    let folder = format!(in rt.alloc(); "{}/mutest-{test}-{number}", temp.as_path().as_str())?;
    fs::create_dir_all(rt, folder.as_str())?;
    Ok(folder)
}

// A keeper may go to another thread.
fn sent<K: Keeper + Send>(keeper: K) -> K {
    keeper
}

fn answered<K: Keeper>(keeper: &mut K) -> Result<usize, Fail> {
    first_other_call(keeper, &CALLS)
}

fn answered_with_failures<K: Keeper>(keeper: &mut K) -> Result<usize, Fail> {
    first_other_call(keeper, &FAILING_CALLS)
}

fn refused<K: Keeper>(keeper: &mut K) -> Result<usize, Fail> {
    first_other_call(keeper, &REFUSED_CALLS)
}

fn begun<K: Keeper>(keeper: &mut K) -> Result<usize, Fail> {
    first_other_call(keeper, &FIRST_CALLS)
}

fn changed<K: Keeper>(keeper: &mut K) -> Result<usize, Fail> {
    first_other_call(keeper, &CHANGED_CALLS)
}

fn removed<K: Keeper>(keeper: &mut K) -> Result<usize, Fail> {
    first_other_call(keeper, &REMOVED_CALLS)
}

#[test]
fn both_keepers_load_append_and_sync(rt: HostRuntime) -> Result<(), Fail> {
    let folder = own_folder(&rt, "keep")?;
    let path = format!(in rt.alloc(); "{folder}/journal")?;
    let mut memory = MemKeeper::new(Bytes::new(rt.alloc()), Vec::new(rt.alloc()));
    assert_eq!(rt; answered(&mut memory)?, 8);
    assert_eq!(rt; memory.bytes(), b"one two!".as_slice());
    let mut real = sent(HostKeeper::new(&rt, path));
    assert_eq!(rt; answered(&mut real)?, 8);
    fs::remove_dir_all(&rt, folder.as_str())?;
    Ok(())
}

#[test]
fn a_keeper_in_memory_fails_as_it_is_told(rt: HostRuntime) -> Result<(), Fail> {
    let kept = Bytes::from_slice(rt.alloc(), b"kept ")?;
    let failing = Vec::from_array(rt.alloc(), [0, 2, 4, 7])?;
    let mut memory = MemKeeper::new(kept, failing);
    assert_eq!(rt; answered_with_failures(&mut memory)?, 9);
    assert_eq!(rt; memory.bytes(), b"kept more".as_slice());
    Ok(())
}

#[test]
fn what_is_no_regular_file_keeps_nothing(rt: HostRuntime) -> Result<(), Fail> {
    let folder = own_folder(&rt, "refused")?;
    symlink(&rt, "missing", format!(in rt.alloc(); "{folder}/nowhere")?)?;
    symlink(&rt, "/dev/null", format!(in rt.alloc(); "{folder}/null")?)?;
    for name in ["", "/nowhere", "/null", "/none/journal"] {
        let path = format!(in rt.alloc(); "{folder}{name}")?;
        let mut real = HostKeeper::new(&rt, path);
        assert_eq!(rt; refused(&mut real)?, 4, "at {name}");
    }
    fs::remove_dir_all(&rt, folder.as_str())?;
    Ok(())
}

#[test]
fn one_run_alone_appends_to_a_file(rt: HostRuntime) -> Result<(), Fail> {
    let folder = own_folder(&rt, "alone")?;
    let path = format!(in rt.alloc(); "{folder}/journal")?;
    let mut first = HostKeeper::new(&rt, path.clone()?);
    assert_eq!(rt; begun(&mut first)?, 4);
    let mut second = HostKeeper::new(&rt, path.clone()?);
    assert_eq!(rt; refused(&mut second)?, 4);
    let mut other = OpenOptions::new().append(true).open(&rt, path.as_str())?;
    other.write_all(b", two")?;
    assert_eq!(rt; changed(&mut first)?, 6);
    let kept = fs::read(&rt, path.as_str())?;
    assert_eq!(rt; kept.as_slice(), b"one, two, three".as_slice());
    fs::remove_file(&rt, path.as_str())?;
    assert_eq!(rt; removed(&mut first)?, 3);
    fs::remove_dir_all(&rt, folder.as_str())?;
    Ok(())
}
