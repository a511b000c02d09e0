//! Commands as the tables write them.

use class_model::Memory;
use mutest_words::{AsmOptions, Command, GenerateOptions, RunOptions};

/// Adds a text.
pub fn push(out: &mut String, text: &str) -> Result<(), Memory> {
    out.push_str(text)?;
    Ok(())
}

// A word, behind a space.
fn push_word(out: &mut String, word: &str) -> Result<(), Memory> {
    push(out, " ")?;
    push(out, word)
}

// An option that may be left out, where it stands.
fn push_option(out: &mut String, name: &str, value: Option<&str>) -> Result<(), Memory> {
    let Some(value) = value else {
        return Ok(());
    };
    push_word(out, name)?;
    push_word(out, value)
}

// A number, where it isn't the usual one.
fn push_number(out: &mut String, name: &str, number: u32, usual: u32) -> Result<(), Memory> {
    if number == usual {
        return Ok(());
    }
    let text = format!(in *out.allocator(); " {name} {number}")?;
    push(out, text.as_str())
}

// A flag, where it stands there.
fn push_flag(out: &mut String, name: &str, is_set: bool) -> Result<(), Memory> {
    if is_set {
        push_word(out, name)?;
    }
    Ok(())
}

fn push_run(out: &mut String, options: &RunOptions<'_>) -> Result<(), Memory> {
    push(out, "run")?;
    push_word(out, options.classes)?;
    push_word(out, options.tests)?;
    push_word(out, options.report)?;
    push_option(out, "new", options.new_history)?;
    push_option(out, "sources", options.sources)?;
    push_option(out, "history", options.history)?;
    push_option(out, "journal", options.journal)?;
    push_number(out, "workers", options.workers, 1)?;
    push_number(out, "steps", options.steps, 10_000_000)?;
    push_number(out, "heap", options.heap, 4_194_304)?;
    push_number(out, "depth", options.depth, 1_024)?;
    push_flag(out, "matrix", options.matrix)
}

fn push_asm(out: &mut String, options: AsmOptions<'_>) -> Result<(), Memory> {
    push(out, "asm")?;
    push_word(out, options.text)?;
    push_option(out, "out", Some(options.out))
}

fn push_generate(out: &mut String, options: GenerateOptions) -> Result<(), Memory> {
    let classes = options.classes;
    let text = format!(in *out.allocator(); "generate {classes}")?;
    push(out, text.as_str())?;
    push_number(out, "workers", options.workers, 1)?;
    push_flag(out, "matrix", options.matrix)
}

/// Adds a command, or that there is none.
pub fn push_command(out: &mut String, command: &Option<Command<'_>>) -> Result<(), Memory> {
    match command {
        Some(Command::List(file)) => {
            push(out, "list")?;
            push_word(out, *file)
        }
        Some(Command::Assemble(options)) => push_asm(out, *options),
        Some(Command::Run(options)) => push_run(out, options),
        Some(Command::Generate(options)) => push_generate(out, *options),
        None => push(out, "Usage"),
    }
}
