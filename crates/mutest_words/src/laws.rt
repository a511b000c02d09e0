//! Laws of commands.

ghost use Rattle.mutest_words.specs.Laws.{AreRead, OptionsAreLimited, SuitesAreSmall};

/// The numbers of a command's options are within their bounds.
pub fn options_are_limited()
    ensures run { OptionsAreLimited }
    ensures generate { SuitesAreSmall }
{}

/// There are such commands: `run` with its folders and paths and eight workers, and `generate 50`.
pub fn commands_are_read()
    ensures { AreRead }
{}
