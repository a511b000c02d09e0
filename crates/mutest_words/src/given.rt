//! What the words behind a command's name give, read by `clap`.

ghost use Rattle.std.specs.Prelude.{◌≡◌, IfOk, true, map, option_map, string_bytes};
ghost use Rattle.std.specs.List.{list_any};
ghost use Rattle.clap.specs.Words.{app_of, first_of, found_of, is_simple_and_free, rows_of};
ghost use Rattle.mutest_words.specs.Given.{GivesRows, app_with, bare_app, flag_rule, given, is_refused, is_set, lacks, option_rule, plain_rule, read, texts, with_all};

use clap::error::ErrorKind;
use clap::{Arg, ArgAction, ArgMatches, Command};
use class_model::Memory;
use std::alloc::Global;

// A command with no argument: no word asks for help or for a version.
fn bare_command<'a>(alloc: Global) -> Command<'a>
    ensures { app_of result ≡ bare_app }
{
    Command::new(alloc, "")
        .no_binary_name(true)
        .disable_help_flag(true)
        .disable_version_flag(true)
}

// The command with plain words of these names.
fn with_plain<'a>(
    alloc: Global,
    command: Command<'a>,
    names: &[&'a str],
) -> Result<Command<'a>, Memory>
    ensures { IfOk result (λ c.
        app_of c ≡ with_all (app_of command.entry) (map plain_rule (texts names.now))) }
{
    let mut command = command;
    for name in names {
        let plain = Arg::new(alloc, *name).action(ArgAction::Set);
        command = command.arg(plain)?;
    }
    Ok(command)
}

// The command with options of these names, each with a value.
fn with_options<'a>(
    alloc: Global,
    command: Command<'a>,
    names: &[&'a str],
) -> Result<Command<'a>, Memory>
    ensures { IfOk result (λ c.
        app_of c ≡ with_all (app_of command.entry) (map option_rule (texts names.now))) }
{
    let mut command = command;
    for name in names {
        let option = Arg::new(alloc, *name).long(*name).action(ArgAction::Set);
        command = command.arg(option)?;
    }
    Ok(command)
}

// The command with flags of these names.
fn with_flags<'a>(
    alloc: Global,
    command: Command<'a>,
    names: &[&'a str],
) -> Result<Command<'a>, Memory>
    ensures { IfOk result (λ c.
        app_of c ≡ with_all (app_of command.entry) (map flag_rule (texts names.now))) }
{
    let mut command = command;
    for name in names {
        let flag = Arg::new(alloc, *name)
            .long(*name)
            .action(ArgAction::SetTrue);
        command = command.arg(flag)?;
    }
    Ok(command)
}

// A command with these plain words, options and flags.
fn command_with<'a>(
    alloc: Global,
    plain: &[&'a str],
    options: &[&'a str],
    flags: &[&'a str],
) -> Result<Command<'a>, Memory>
    ensures { IfOk result (λ c.
        app_of c ≡ app_with (texts plain.now) (texts options.now) (texts flags.now)) }
{
    let command = bare_command(alloc);
    let command = with_plain(alloc, command, plain)?;
    let command = with_options(alloc, command, options)?;
    let command = with_flags(alloc, command, flags)?;
    Ok(command)
}

// No command has an empty word, the word `--`, or an option with nothing behind its `=`.
fn is_refused(word: &str) -> bool
    ensures { result ≡ is_refused word.now }
{
    let bytes = word.as_bytes();
    bytes.is_empty() || word == "--" || (bytes.starts_with(b"--") && bytes.ends_with(b"="))
}

fn has_refused(words: &[String]) -> bool
    ensures { result ≡ list_any is_refused (map string_bytes words.now) }
{
    for word in words {
        if is_refused(word.as_str()) {
            return true;
        }
    }
    false
}

/// The value of an option, or the plain word, of this name.
pub fn value_of<'a>(matches: &ArgMatches<'a>, name: &str) -> Option<&'a str>
    ensures { option_map (λ v. v.now) result ≡ first_of name.now (rows_of (found_of matches.now)) }
{
    matches.get_str(name)
}

/// The flag of this name stands there.
pub fn is_set(matches: &ArgMatches<'_>, name: &str) -> bool
    ensures { result ≡ is_set name.now (rows_of (found_of matches.now)) }
{
    match value_of(matches, name) {
        Some(value) => value == "true",
        None => false,
    }
}

/// None of these options stands there.
pub fn lacks(matches: &ArgMatches<'_>, names: &[&str]) -> bool
    ensures { result ≡ lacks (texts names.now) (rows_of (found_of matches.now)) }
{
    for name in names {
        if value_of(matches, name).is_some() {
            return false;
        }
    }
    true
}

// What `clap` reads of words, where they are options and plain words of the command.
fn read<'a>(command: Command<'a>, words: &'a [String]) -> Result<Option<ArgMatches<'a>>, Memory>
    requires { is_simple_and_free (app_of command) ≡ true }
    ensures { IfOk result (GivesRows (read (app_of command.entry)
        (map string_bytes words.entry.now))) }
{
    match command.try_get_matches_from(words) {
        Ok(matches) => Ok(Some(matches)),
        Err(error) => match error.kind() {
            ErrorKind::OutOfMemory => Err(Memory),
            _ => Ok(None),
        },
    }
}

/// What words give, where they are plain words, options and flags of these names, each once at most.
pub fn given<'a>(
    alloc: Global,
    plain: &[&'a str],
    options: &[&'a str],
    flags: &[&'a str],
    words: &'a [String],
) -> Result<Option<ArgMatches<'a>>, Memory>
    requires { is_simple_and_free (app_with (texts plain.now) (texts options.now) (texts flags.now))
        ≡ true }
    ensures { IfOk result (GivesRows
        (given (app_with (texts plain.now) (texts options.now) (texts flags.now))
        (map string_bytes words.entry.now))) }
{
    if has_refused(words) {
        return Ok(None);
    }
    let command = command_with(alloc, plain, options, flags)?;
    let matches = read(command, words)?;
    Ok(matches)
}
