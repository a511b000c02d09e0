//! Calls of `mutest_words` once more, for the wrong bodies in `must-fail/`: each puts another body
//! in the place of one of these, which the same contract refuses.

ghost use Rattle.std.specs.Prelude.{◌≡◌, map, string_bytes, IfOk};
ghost use Rattle.mutest_words.specs.Given.{texts};
ghost use Rattle.mutest_words.specs.Words.{command_by, paths_differ, as_run_options, Finds};

use class_model::Memory;
use mutest_words::{Command, RunOptions};
use std::alloc::Global;

/// `command_by`, with its contract.
pub fn command_by<'a>(
    alloc: Global,
    unbuilt: &[&str],
    words: &'a [String],
) -> Result<Option<Command<'a>>, Memory>
    ensures { IfOk result (Finds (command_by (texts unbuilt.now)
        (map string_bytes words.entry.now))) }
{
    let command = mutest_words::command_by(alloc, unbuilt, words)?;
    Ok(command)
}

/// `paths_differ`, with its contract.
pub fn paths_differ(options: &RunOptions<'_>) -> bool
    ensures { result ≡ paths_differ (as_run_options options.now) }
{
    let differ = mutest_words::paths_differ(options);
    differ
}
