//! Reads a file of calls of native methods, which the first word names, a line each, and prints
//! each line with what its calls come to.
#![tactic(auto)]

mod arguments;
mod calls;
mod classes;
mod ends;

use crate::calls::push_lines;
use std::{env, fs};

fn main(rt: HostRuntime) -> anyhow::Result<()> {
    let mut words = env::args(&rt)?.skip(1);
    let Some(calls) = words.next() else {
        anyhow::bail!("a file of calls");
    };
    let calls = fs::read_to_string(&rt, calls.as_str())?;
    let mut out = String::new(rt.alloc());
    push_lines(calls.as_str(), &mut out)?;
    print!(rt; "{out}")?;
    Ok(())
}
