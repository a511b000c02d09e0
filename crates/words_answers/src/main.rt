//! Reads two tables of lists of words, a list a line, and prints each list that isn't read as its
//! line says, with how it is read, and how many lists there are. The first table is of the whole
//! language, the second of what is built.
#![tactic(auto)]

mod same_words;
mod shown;
mod table;

use crate::table::push_table;
use std::{env, fs};

fn main(rt: HostRuntime) -> anyhow::Result<()> {
    let mut words = env::args(&rt)?.skip(1);
    let Some(whole) = words.next() else {
        anyhow::bail!("a table of lists of words");
    };
    let Some(built) = words.next() else {
        anyhow::bail!("a second table");
    };
    let whole = fs::read_to_string(&rt, whole.as_str())?;
    let built = fs::read_to_string(&rt, built.as_str())?;
    let mut out = String::new(rt.alloc());
    push_table(whole.as_str(), true, &mut out)?;
    push_table(built.as_str(), false, &mut out)?;
    print!(rt; "{out}")?;
    Ok(())
}
