//! Laws of the assembler, over the definitions of the crates below alone. Each law is the contract
//! of a function that does nothing, or that calls the laws on which it stands.
#![tactic(auto)]

mod class_text_laws;
mod text_laws;

ghost use Rattle.asm_laws.specs.Answered.{TextsHaveOneAnswer};
ghost use Rattle.asm_laws.specs.Faults.{FaultsAreLines};
ghost use Rattle.asm_laws.specs.Spelled.{AssembledIsSpelled};

pub use class_text_laws::{classes_are_read_back, laws_are_of_use, texts_are_read_back};
use class_writer::what_is_written_is_spelled;
pub use text_laws::{
    code_lines_are_read_back, codes_are_labelled, instruction_lines_are_read_back,
    member_lines_are_read_back,
};

/// What a text states is a class of the standard's form, and `class_asm::assemble` gives its class
/// file: the bytes spell it, and `class_reader::read_class` reads what bytes spell.
pub fn what_is_assembled_is_spelled()
    ensures { AssembledIsSpelled }
{
    what_is_written_is_spelled();
}

/// What `class_asm::assemble` says of its result leaves one result for each text, unless memory
/// runs out.
pub fn texts_have_one_answer()
    ensures { TextsHaveOneAnswer }
{}

/// What a text states is a class or a first wrong line, and never want of memory.
pub fn faults_are_lines()
    ensures { FaultsAreLines }
{}
