//! Reads each class file below a folder, which the first word names, as one program, and prints
//! what is answered of it. The file of the second word has the classes that these stand on, a line
//! each (`library`), that of the third word uses of members and names, a line each (`lines`).
//! Prints each class that isn't accepted, with the method, the instruction and the rule; how many
//! class files there were, how many were outside of the profile, how many were accepted and
//! refused; and each use with what it comes to. With a fourth word it prints how long all took but
//! the uses.
#![tactic(auto)]

mod files;
mod library;
mod lines;
mod uses;
mod verdicts;

use crate::files::read_all;
use crate::library::library_of;
use crate::lines::push_lines;
use crate::verdicts::{refusal, verdicts_of};
use class_model::Bytes;
use class_table::Program;
use mt_edge::{HostTree, Tree};
use std::alloc::Global;
use std::time::Instant;
use std::{env, fs};

fn bytes_of<T: Tree>(alloc: Global, tree: &mut T, folder: &str) -> anyhow::Result<Vec<Bytes>> {
    let mut files = Vec::new(alloc);
    for path in tree.list(folder)? {
        if !path.as_str().ends_with(".class") {
            continue;
        }
        if let Some(bytes) = tree.read(path.as_str())? {
            files.push(bytes)?;
        }
    }
    Ok(files)
}

// How many class files there were, and how long it took to read and to link them.
#[derive(Clone, Copy)]
struct Counts {
    inside: usize,
    outside: u64,
    wrong: u64,
    reading: u128,
    linking: u128,
}

// The program of the class files below a folder, and of the classes of a text on which they stand.
fn program_of(
    rt: &HostRuntime,
    folder: &str,
    supers: &str,
    counts: &mut Counts,
) -> anyhow::Result<Program> {
    let alloc = rt.alloc();
    let files = bytes_of(alloc, &mut HostTree::new(rt), folder)?;
    let start = Instant::now(rt)?;
    let read = read_all(alloc, files)?;
    counts.reading = start.elapsed(rt)?.as_millis();
    counts.inside = read.names.len();
    counts.outside = read.outside;
    counts.wrong = read.wrong;
    let library = library_of(alloc, supers, &read.names)?;
    let start = Instant::now(rt)?;
    let program = Program::build(alloc, read.classes, library)?;
    counts.linking = start.elapsed(rt)?.as_millis();
    Ok(program)
}

// Prints what the verifier answers of each class, and gives how long that took.
fn print_verdicts(rt: &HostRuntime, program: &Program, counts: Counts) -> anyhow::Result<u128> {
    let alloc = rt.alloc();
    let start = Instant::now(rt)?;
    let verdicts = verdicts_of(alloc, program)?;
    let verifying = start.elapsed(rt)?.as_millis();
    for fault in &verdicts.refused {
        let line = refusal(alloc, program, fault)?;
        println!(rt; "{line}")?;
    }
    println!(rt;
        "{} class files in the profile, {} outside of it, {} not read; {} accepted, {} refused",
        counts.inside,
        counts.outside,
        counts.wrong,
        verdicts.accepted,
        verdicts.refused.len()
    )?;
    Ok(verifying)
}

// Prints what each use comes to.
fn print_uses(rt: &HostRuntime, program: &Program, uses: &str) -> anyhow::Result<()> {
    let mut out = String::new(rt.alloc());
    push_lines(program, uses, &mut out)?;
    print!(rt; "{out}")?;
    Ok(())
}

fn main(rt: HostRuntime) -> anyhow::Result<()> {
    let mut words = env::args(&rt)?.skip(1);
    let (Some(folder), Some(supers), Some(uses)) = (words.next(), words.next(), words.next()) else {
        anyhow::bail!("a folder, a file of supers and a file of uses");
    };
    let timed = words.next().is_some();
    let supers = fs::read_to_string(&rt, supers.as_str())?;
    let uses = fs::read_to_string(&rt, uses.as_str())?;
    let mut counts = Counts {
        inside: 0,
        outside: 0,
        wrong: 0,
        reading: 0,
        linking: 0,
    };
    let program = program_of(&rt, folder.as_str(), supers.as_str(), &mut counts)?;
    let verifying = print_verdicts(&rt, &program, counts)?;
    print_uses(&rt, &program, uses.as_str())?;
    if timed {
        println!(rt;
            "reading {} ms, linking {} ms, verifying {verifying} ms",
            counts.reading, counts.linking
        )?;
    }
    Ok(())
}
