//! The classes of a suite: two folders are listed, their files are read, and then each is spelled.

ghost use Rattle.std.specs.Prelude.{◌≡◌, ◌+◌, ◌≤◌, length, map, string_bytes, All, IfSome, IfOk, IfErr};
ghost use Rattle.mutest_engine.specs.Refusals.{IsLoading};
ghost use Rattle.mutest_engine.specs.Steps.{Asks, Gives, ReadsBy, ReadsHeld, IsNoFault, Refuses, RefusesReading};
ghost use Rattle.mutest_engine.specs.SuiteFiles.{texts, both_texts, some_of, both_of, Lists, ListsBoth, is_class_path, class_paths, refuse_many_classes, within_sum, read_one, FilesHeld, bytes_in, loaded, all_loaded, both_loaded, ReadsBoth, LoadsHeld, IsRead, IsFormed};

use crate::files::{not_found, read_file, spelled_class};
use crate::refusal::{Limit, Refusal};
use crate::stop::{Halt, Stop};
use class_model::{Bytes, Seq, SharedBytes};
use class_table::Loaded;
use mt_edge::{EdgeFault, Tree};
use std::alloc::Global;

const CLASSES_LIMIT: usize = 20_000;

const BYTES_LIMIT: u64 = 67_108_864;

/// A class file as it was read.
#[derive(Drop)]
pub struct ClassFile {
    pub path: Bytes,
    pub bytes: Bytes,
}

/// The classes of a folder of classes and of one of tests.
#[derive(Drop)]
pub struct LoadedSuite {
    pub classes: Seq<Loaded>,
    pub tests: Seq<Loaded>,
}

// ---- paths

// Paths below a folder, of which there have to be some.
fn some_paths(alloc: Global, folder: &str, paths: Vec<String>) -> Result<Vec<String>, Halt>
    ensures value { ReadsBy texts (some_of folder.now (texts paths)) result }
    ensures refusal { IfErr result (RefusesReading IsLoading) }
    ensures unread { IfErr result IsNoFault }
{
    if paths.is_empty() {
        Err(not_found(alloc, folder))
    } else {
        Ok(paths)
    }
}

// The paths below a folder, which holds some.
fn list_folder<T: Tree>(alloc: Global, tree: &mut T, folder: &str) -> Result<Vec<String>, Halt>
    ensures value { IfSome (T.holds tree.old) (Lists folder.now result) }
    ensures tree { Asks T.holds T.writing T.reading IsLoading tree.old tree.new result }
{
    match tree.list(folder) {
        Ok(paths) => some_paths(alloc, folder, paths),
        Err(EdgeFault::Failed) => Err(Halt::ReadFault { faults: 1 }),
        Err(EdgeFault::Memory) => Err(Halt::WantOfMemory),
    }
}

fn is_class_path(path: &str) -> bool
    ensures { result ≡ is_class_path path.now }
{
    path.as_bytes().ends_with(b".class")
}

// The class files among paths.
fn class_paths(mut paths: Vec<String>) -> Vec<String>
    ensures { map string_bytes result.items ≡ class_paths (map string_bytes paths.items) }
{
    paths.retain(|path| is_class_path(path.as_str()));
    paths
}

// Refuses so many classes where they are past the limit.
fn refuse_many_classes(count: usize) -> Result<(), Refusal>
    ensures value { result ≡ refuse_many_classes count }
    ensures refusal { IfErr result IsLoading }
{
    if count > CLASSES_LIMIT {
        return Err(Refusal::TooMany {
            limit: Limit::Classes,
            number: CLASSES_LIMIT as u64 + 1,
        });
    }
    Ok(())
}

// The class files among the paths of both folders.
fn both_paths(classes: Vec<String>, tests: Vec<String>) -> Result<(Vec<String>, Vec<String>), Halt>
    ensures value { ReadsBy both_texts (both_of (texts classes) (texts tests)) result }
    ensures refusal { IfErr result (RefusesReading IsLoading) }
    ensures unread { IfErr result IsNoFault }
{
    let classes = class_paths(classes);
    let tests = class_paths(tests);
    match refuse_many_classes(classes.len().saturating_add(tests.len())) {
        Ok(()) => Ok((classes, tests)),
        Err(refusal) => Err(Halt::Refused(refusal)),
    }
}

// The class files of both folders.
fn list_both<T: Tree>(
    alloc: Global,
    tree: &mut T,
    classes_folder: &str,
    tests_folder: &str,
) -> Result<(Vec<String>, Vec<String>), Halt>
    ensures value { ListsBoth (T.holds tree.old) classes_folder.now tests_folder.now result }
    ensures tree { Asks T.holds T.writing T.reading IsLoading tree.old tree.new result }
{
    let classes = list_folder(alloc, tree, classes_folder)?;
    let tests = list_folder(alloc, tree, tests_folder)?;
    both_paths(classes, tests)
}

// ---- files

fn within_sum(sum: u64) -> Result<u64, Refusal>
    ensures value { result ≡ within_sum sum }
    ensures few { IfOk result (λ total. total ≤ 67108864) }
    ensures refusal { IfErr result IsLoading }
{
    if sum > BYTES_LIMIT {
        return Err(Refusal::TooMany {
            limit: Limit::Bytes,
            number: sum,
        });
    }
    Ok(sum)
}

// One more file, where so many bytes were read before. They are as many more then.
fn read_one<T: Tree>(
    alloc: Global,
    tree: &mut T,
    sum: &mut u64,
    path: &str,
) -> Result<ClassFile, Halt>
    requires { sum.old ≤ 67108864 }
    ensures value { ReadsHeld (T.holds tree.old) (read_one sum.old path.now) result }
    ensures sum { IfOk result (λ file. sum.new ≡ sum.old + length file.bytes) }
    ensures few { sum.new ≤ 67108864 }
    ensures tree { Asks T.holds T.writing T.reading IsLoading tree.old tree.new result }
{
    let bytes = read_file(alloc, tree, path)?;
    let total = within_sum(*sum + bytes.len() as u64)?;
    let path = Bytes::from_slice(alloc, path.as_bytes())?;
    *sum = total;
    Ok(ClassFile { path, bytes })
}

// The files of a folder, where so many bytes were read before.
fn read_files<T: Tree>(
    alloc: Global,
    tree: &mut T,
    sum: &mut u64,
    paths: &[String],
) -> Result<Seq<ClassFile>, Halt>
    requires { sum.old ≤ 67108864 }
    ensures value { FilesHeld (T.holds tree.old) sum.old (map string_bytes paths.now) result }
    ensures sum { IfOk result (λ read. sum.new ≡ sum.old + bytes_in read) }
    ensures few { sum.new ≤ 67108864 }
    ensures tree { Asks T.holds T.writing T.reading IsLoading tree.old tree.new result }
{
    let mut files = Seq::new(alloc);
    for path in paths {
        let file = read_one(alloc, tree, sum, path.as_str())?;
        files.push(file)?;
    }
    Ok(files)
}

// ---- classes

fn load(alloc: Global, file: ClassFile) -> Result<Loaded, Stop>
    ensures value { Gives (loaded file) result }
    ensures form { IfOk result IsRead }
    ensures refusal { IfErr result (Refuses IsLoading) }
{
    let bytes = SharedBytes::new(alloc, file.bytes)?;
    let class = spelled_class(alloc, file.path.as_slice(), bytes.as_slice())?;
    Ok(Loaded { bytes, class })
}

fn load_all(alloc: Global, files: Seq<ClassFile>) -> Result<Seq<Loaded>, Stop>
    ensures value { Gives (all_loaded files) result }
    ensures form { IfOk result (All IsRead) }
    ensures refusal { IfErr result (Refuses IsLoading) }
{
    let mut all = Seq::new(alloc);
    for file in files.into_vec() {
        let one = load(alloc, file)?;
        all.push(one)?;
    }
    Ok(all)
}

/// The files of both folders, as they are read.
pub fn load_both(
    alloc: Global,
    classes: Seq<ClassFile>,
    tests: Seq<ClassFile>,
) -> Result<LoadedSuite, Stop>
    ensures value { Gives (both_loaded classes tests) result }
    ensures form { IfOk result IsFormed }
    ensures refusal { IfErr result (Refuses IsLoading) }
{
    let classes = load_all(alloc, classes)?;
    let tests = load_all(alloc, tests)?;
    Ok(LoadedSuite { classes, tests })
}

// The classes of the class files at these paths. All files are read before one is looked into.
fn read_suite<T: Tree>(
    alloc: Global,
    tree: &mut T,
    classes: &[String],
    tests: &[String],
) -> Result<LoadedSuite, Halt>
    ensures value { ReadsBoth (T.holds tree.old) classes.now tests.now result }
    ensures form { IfOk result IsFormed }
    ensures tree { Asks T.holds T.writing T.reading IsLoading tree.old tree.new result }
{
    let mut sum = 0u64;
    let classes = read_files(alloc, tree, &mut sum, classes)?;
    let tests = read_files(alloc, tree, &mut sum, tests)?;
    Ok(load_both(alloc, classes, tests)?)
}

/// The classes of a folder of classes and of one of tests.
pub fn load_suite<T: Tree>(
    alloc: Global,
    tree: &mut T,
    classes_folder: &str,
    tests_folder: &str,
) -> Result<LoadedSuite, Halt>
    ensures value { LoadsHeld (T.holds tree.old) classes_folder.now tests_folder.now result }
    ensures form { IfOk result IsFormed }
    ensures tree { Asks T.holds T.writing T.reading IsLoading tree.old tree.new result }
{
    match list_both(alloc, tree, classes_folder, tests_folder) {
        Ok(paths) => read_suite(alloc, tree, paths.0.as_slice(), paths.1.as_slice()),
        Err(halt) => Err(halt),
    }
}
