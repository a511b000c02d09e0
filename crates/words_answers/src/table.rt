//! A table: a list of words a line, each word behind a `|`, then ` => ` and the command that they
//! are. A line that is empty or begins with `#` is passed over.

use crate::same_words::command_by;
use crate::shown::{push, push_command};
use class_model::Memory;
use mutest_words::command_of;
use std::alloc::Global;

fn words_of(alloc: Global, text: &str) -> Result<Vec<String>, Memory> {
    let mut words = Vec::new(alloc);
    for word in text.split('|').skip(1) {
        let word = String::from_str(alloc, word)?;
        words.push(word)?;
    }
    Ok(words)
}

// What words are in the whole language.
fn push_whole(words: &[String], out: &mut String) -> Result<(), Memory> {
    let command = command_by(*out.allocator(), &[], words)?;
    push_command(out, &command)
}

// What words are as far as commands are built.
fn push_built(words: &[String], out: &mut String) -> Result<(), Memory> {
    let command = command_of(*out.allocator(), words)?;
    push_command(out, &command)
}

// How words are read, in a text.
fn read_as(alloc: Global, text: &str, whole: bool) -> Result<String, Memory> {
    let words = words_of(alloc, text)?;
    let mut read = String::new(alloc);
    if whole {
        push_whole(words.as_slice(), &mut read)?;
    } else {
        push_built(words.as_slice(), &mut read)?;
    }
    Ok(read)
}

// A list of words that isn't read as the line says, with how it is read.
fn push_other(line: &str, whole: bool, out: &mut String) -> anyhow::Result<()> {
    let Some((text, command)) = line.split_once(" => ") else {
        anyhow::bail!("a line has no command");
    };
    let read = read_as(*out.allocator(), text, whole)?;
    if read.as_str() != command {
        push(out, line)?;
        push(out, ", read as ")?;
        push(out, read.as_str())?;
        push(out, "\n")?;
    }
    Ok(())
}

/// Adds the lists of a table that aren't read as it says, and how many lists it has.
pub fn push_table(table: &str, whole: bool, out: &mut String) -> anyhow::Result<()> {
    let mut lists = 0u64;
    for line in table.lines() {
        if line.is_empty() || line.starts_with('#') {
            continue;
        }
        push_other(line, whole, out)?;
        lists = lists.saturating_add(1);
    }
    let text = format!(in *out.allocator(); "{lists} lists of words\n")?;
    push(out, text.as_str())?;
    Ok(())
}
