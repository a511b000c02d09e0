//! Makes the suite of as many classes as the first word says, each with its test. Where a second
//! word names a folder, the class files go below it, those of the classes into `classes` and those
//! of the tests into `tests`. Prints how many bytes each has.
#![tactic(auto)]

use class_model::{Bytes, Memory};
use std::{env, fs};
use suite_generator::made_suite;

// Adds a line for each file, with its number and how many bytes it has.
fn push_lengths(kind: &str, files: &[Bytes], out: &mut String) -> Result<(), Memory> {
    for (number, file) in files.iter().enumerate() {
        let bytes = file.len();
        let line = format!(in *out.allocator(); "gen/{kind}{number} {bytes}\n")?;
        out.push_str(line.as_str())?;
    }
    Ok(())
}

fn write_files(rt: &HostRuntime, folder: &str, kind: &str, files: &[Bytes]) -> anyhow::Result<()> {
    let below = format!(in rt.alloc(); "{folder}/gen")?;
    fs::create_dir_all(rt, below.as_str())?;
    for (number, file) in files.iter().enumerate() {
        let path = format!(in rt.alloc(); "{below}/{kind}{number}.class")?;
        fs::write(rt, path.as_str(), file.as_slice())?;
    }
    Ok(())
}

fn main(rt: HostRuntime) -> anyhow::Result<()> {
    let mut words = env::args(&rt)?.skip(1);
    let count = match words.next() {
        Some(word) => word.parse::<u32>()?,
        None => 0,
    };
    if count < 1 || 200 < count {
        anyhow::bail!("a number of classes from 1 to 200");
    }
    let suite = made_suite(rt.alloc(), count)?;
    if let Some(folder) = words.next() {
        let classes = format!(in rt.alloc(); "{folder}/classes")?;
        write_files(&rt, classes.as_str(), "C", suite.classes.as_slice())?;
        let tests = format!(in rt.alloc(); "{folder}/tests")?;
        write_files(&rt, tests.as_str(), "T", suite.tests.as_slice())?;
    }
    let mut out = String::new(rt.alloc());
    push_lengths("C", suite.classes.as_slice(), &mut out)?;
    push_lengths("T", suite.tests.as_slice(), &mut out)?;
    print!(rt; "{out}")?;
    Ok(())
}
