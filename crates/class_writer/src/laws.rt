//! Laws on the definitions.

ghost use Rattle.class_writer.specs.Writing.{SpelledIsWritten, WrittenIsSpelled};

/// What was read is written as it was: a class that has a spelling is one that `write_class` takes,
/// and it gives that spelling.
pub fn what_is_spelled_is_written()
    ensures { SpelledIsWritten }
{}

/// What was written is read again: a class whose indices name what they have to, and that has room,
/// is spelled by what `write_class` gives. So it gives bytes exactly where they are the class's
/// spelling.
pub fn what_is_written_is_spelled()
    ensures { WrittenIsSpelled }
{}
