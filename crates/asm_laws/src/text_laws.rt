//! The text of a class, printed by a definition: the lines that are printed are read back as what
//! was printed.
//!
//! Nothing here runs. The definitions are in `specs/`, and each function has laws as its contract.

ghost use Rattle.asm_laws.specs.CodeText.{CodesAreLabelled};
ghost use Rattle.asm_laws.specs.LineStatement.{HeadsAreReadBack, NotesAreReadBack, FieldsAreReadBack, MethodsAreReadBack, NumbersAreReadBack, RowsAreReadBack, FramesAreReadBack};
ghost use Rattle.asm_laws.specs.Statement.{InsnsAreReadBack};

/// The line that is printed of an instruction has the words that were printed, and states that
/// instruction, whatever its kind.
pub fn instruction_lines_are_read_back()
    ensures { InsnsAreReadBack }
{}

/// The first lines of a class, of fields and of methods, and the lines of annotations state what
/// they were printed of.
pub fn member_lines_are_read_back()
    ensures heads { HeadsAreReadBack }
    ensures notes { NotesAreReadBack }
    ensures fields { FieldsAreReadBack }
    ensures methods { MethodsAreReadBack }
{}

/// So do the lines of a code that are no instructions: line numbers, handlers and frames.
pub fn code_lines_are_read_back()
    ensures numbers { NumbersAreReadBack }
    ensures rows { RowsAreReadBack }
    ensures frames { FramesAreReadBack }
{}

/// In the printed lines of a code each instruction has its label, and so has the code's end. So
/// what the laws above ask of labels holds there.
pub fn codes_are_labelled()
    ensures { CodesAreLabelled }
{}
