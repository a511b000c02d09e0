//! The program: its words, the real files and the real output are handed to the top call, whose
//! status is the exit status.
#![tactic(auto)]

use class_model::{Bytes, Memory};
use mt_edge::{HostSink, HostTree, MemKeeper, Meter};
use mutest_engine::{Status, run};
use run_progress::Progress;
use std::env;
use std::env::Env;
use std::fs::File;
use std::io::{ErrorKind, IsTerminal};
use std::os::fd::AsRawFd;
use std::process::ExitCode;
use std::rt::Files;

// The words behind the program's name. Words that are no text count as no words, which no command
// has.
fn words(rt: &(impl Env + AllocGlobal)) -> Result<Vec<String>, Memory> {
    let mut words = Vec::new(rt.alloc());
    match env::args(rt) {
        Ok(args) => {
            for word in args.skip(1) {
                words.push(word)?;
            }
            Ok(words)
        }
        Err(error) if error.kind() == ErrorKind::OutOfMemory => Err(Memory),
        Err(_) => Ok(words),
    }
}

// What stands for an input or output that isn't there: else the next file that is opened would be
// taken for it. To write there fails. Nothing is held where all three are there.
fn stand_in<R: Files<File = File>>(rt: &R) -> Option<File> {
    match File::open(rt, "/dev/null") {
        Ok(file) if file.as_raw_fd() <= 2 => Some(file),
        _ => None,
    }
}

// Whether it is shown how far a command is: of a run, where standard error is a terminal.
fn is_shown(rt: &HostRuntime, words: &Vec<String>) -> bool {
    let first = words.first();
    first.is_some_and(|word| word.as_str() == "run") && rt.stderr().is_terminal()
}

fn main(rt: HostRuntime) -> ExitCode {
    let _held = (stand_in(&rt), stand_in(&rt), stand_in(&rt));
    let mut tree = HostTree::new(&rt);
    let mut out = HostSink::new(&rt);
    let mut meter = Meter::new();
    // No command has a journal yet.
    let keeper = MemKeeper::new(Bytes::new(rt.alloc()), Vec::new(rt.alloc()));
    let status = match words(&rt) {
        Ok(words) => {
            let progress = Progress::new(&rt, is_shown(&rt, &words));
            let (status, _keeper) = run(
                &rt,
                rt.alloc(),
                &words,
                &mut tree,
                &mut out,
                &progress,
                keeper,
                &mut meter,
            );
            progress.clear();
            status
        }
        Err(Memory) => Status::WantOfMemory,
    };
    ExitCode::from(status.code())
}
