//! Laws on the definitions.

ghost use Rattle.class_reader.specs.SpellingLaws.{ReadIsSpelled, OneClass, OneSpelling};

/// A file is read as a class exactly where it is the class file of that class. A file is that of at
/// most one class, and a class has at most one file.
pub fn files_are_read_as_spelled()
    ensures read { ReadIsSpelled }
    ensures one_class { OneClass }
    ensures one_spelling { OneSpelling }
{}
