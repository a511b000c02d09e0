//! The text of a whole class, printed by a definition, states that class.
//!
//! Nothing here runs. The definitions are in `specs/`, and each function has a law as its contract.

ghost use Rattle.asm_laws.specs.ClassStatement.{ClassesAreReadBack, TextsAreReadBack};
ghost use Rattle.asm_laws.specs.ClassHasText.{ClassHasText};
ghost use Rattle.asm_laws.specs.Witness.{sample_class, IsWritten};

use crate::{
    code_lines_are_read_back, codes_are_labelled, instruction_lines_are_read_back,
    member_lines_are_read_back,
};

/// The lines that are printed of a class, from its first one to its end, state that class.
pub fn classes_are_read_back()
    ensures { ClassesAreReadBack }
{
    instruction_lines_are_read_back();
    member_lines_are_read_back();
    code_lines_are_read_back();
    codes_are_labelled();
}

/// So a text that has those lines is assembled to that class.
pub fn texts_are_read_back()
    ensures { TextsAreReadBack }
{
    classes_are_read_back();
}

/// The premises of these laws are met: by a class with an interface, a source, an annotation, a
/// field and a method with code, a line number, a frame and a handler, and by the text that is
/// written of it.
pub fn laws_are_of_use()
    ensures text { ClassHasText sample_class }
    ensures written { IsWritten }
{}
