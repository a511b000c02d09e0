//! Reads each class file below a folder: the one that the first word names, else the one that it
//! runs in. The second word says what is done with a class then: `read` nothing, `list` its mutants
//! are listed, and else it is written and the bytes are compared. Prints how many files came out
//! alike (or were read), how many were refused by which fault, each file that came out otherwise,
//! or whose fault is neither one of floats, nor of dynamic calls, nor of its version, and how many
//! mutants were listed.
#![tactic(auto)]

use class_model::{Class, ClassFault, LayoutFault, Memory};
use class_reader::read_class;
use class_writer::{what_is_spelled_is_written, write_class};
use mt_edge::{HostTree, Tree};
use mutator_ops::{class_mutants, id_lines};
use std::alloc::Global;
use std::env;

/// What is done with a class that was read.
#[derive(Clone, Copy)]
enum Task {
    Read,
    /// The text of its mutants' identifiers is made, as `list` prints it.
    List,
    /// It is written, and the bytes are compared.
    Compare,
}

impl Task {
    fn named(word: &str) -> Task {
        match word {
            "read" => Task::Read,
            "list" => Task::List,
            _ => Task::Compare,
        }
    }
}

/// What came of a file.
#[derive(Clone, Copy, Debug)]
enum Outcome {
    /// It is written as it was read.
    Alike,
    Read,
    /// So many mutants.
    Listed(u64),
    /// It was read, and other bytes were written, or none.
    Otherwise,
    Refused(ClassFault),
    NoMemory,
}

fn compared(alloc: Global, bytes: &[u8]) -> Result<Outcome, ClassFault> {
    let class = read_class(alloc, bytes)?;
    // so what was read may be written
    what_is_spelled_is_written();
    match write_class(alloc, &class) {
        Ok(written) if written.as_slice() == bytes => Ok(Outcome::Alike),
        Err(LayoutFault::Memory) => Err(ClassFault::Memory),
        _ => Ok(Outcome::Otherwise),
    }
}

fn listed(alloc: Global, class: &Class) -> Result<Outcome, Memory> {
    let mutants = class_mutants(alloc, class)?;
    let _text = id_lines(alloc, mutants.as_slice())?;
    Ok(Outcome::Listed(mutants.len() as u64))
}

fn done(alloc: Global, task: Task, bytes: &[u8]) -> Result<Outcome, ClassFault> {
    match task {
        Task::Compare => compared(alloc, bytes),
        Task::Read => {
            read_class(alloc, bytes)?;
            Ok(Outcome::Read)
        }
        Task::List => {
            let class = read_class(alloc, bytes)?;
            match listed(alloc, &class) {
                Ok(outcome) => Ok(outcome),
                Err(Memory) => Err(ClassFault::Memory),
            }
        }
    }
}

fn outcome_of(alloc: Global, task: Task, bytes: &[u8]) -> Outcome {
    match done(alloc, task, bytes) {
        Ok(outcome) => outcome,
        Err(ClassFault::Memory) => Outcome::NoMemory,
        Err(fault) => Outcome::Refused(fault),
    }
}

#[derive(Clone, Copy, Debug)]
struct Counts {
    alike: u64,
    floats: u64,
    dynamic: u64,
    versions: u64,
    others: u64,
    mutants: u64,
}

impl Counts {
    // Counts an outcome, and tells whether it is worth a line of its own.
    fn count(&mut self, outcome: Outcome) -> bool {
        if let Outcome::Listed(mutants) = outcome {
            self.mutants = self.mutants.saturating_add(mutants);
        }
        let one = match outcome {
            Outcome::Alike | Outcome::Read | Outcome::Listed(_) => &mut self.alike,
            Outcome::Refused(ClassFault::FloatUsed { .. }) => &mut self.floats,
            Outcome::Refused(ClassFault::DynamicUsed { .. }) => &mut self.dynamic,
            Outcome::Refused(ClassFault::BadVersion { .. }) => &mut self.versions,
            _ => {
                self.others = self.others.saturating_add(1);
                return true;
            }
        };
        *one = one.saturating_add(1);
        false
    }
}

fn main(rt: HostRuntime) -> anyhow::Result<()> {
    let alloc = rt.alloc();
    let mut words = env::args(&rt)?.skip(1);
    let folder = match words.next() {
        Some(folder) => folder,
        None => String::from_str(alloc, ".")?,
    };
    let task = match words.next() {
        Some(word) => Task::named(word.as_str()),
        None => Task::Compare,
    };
    let mut counts = Counts {
        alike: 0,
        floats: 0,
        dynamic: 0,
        versions: 0,
        others: 0,
        mutants: 0,
    };
    let mut tree = HostTree::new(&rt);
    for path in tree.list(folder.as_str())? {
        if !path.as_str().ends_with(".class") {
            continue;
        }
        let Some(bytes) = tree.read(path.as_str())? else {
            continue;
        };
        let outcome = outcome_of(alloc, task, bytes.as_slice());
        if counts.count(outcome) {
            println!(rt; "{path}: {outcome:?}")?;
        }
    }
    println!(rt;
        "{} alike, {} with floats, {} dynamic, {} of other versions, {} others",
        counts.alike, counts.floats, counts.dynamic, counts.versions, counts.others
    )?;
    if counts.mutants != 0 {
        println!(rt; "{} mutants", counts.mutants)?;
    }
    Ok(())
}
