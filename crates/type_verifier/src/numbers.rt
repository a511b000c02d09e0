//! Whether instructions have numbers (JVMS 4.7.3).

ghost use Rattle.std.specs.Prelude.{◌≡◌, true, All};
ghost use Rattle.type_verifier.specs.ProgramTables.{HasShortCode};
ghost use Rattle.type_verifier.specs.Programs.{AreNumbered};

use class_link::{LinkedBody, LinkedMethod};
use class_model::ClassId;
use class_table::Program;

fn has_short_code(method: &LinkedMethod) -> bool
    ensures yes { result ≡ true → HasShortCode method.now }
    ensures no { HasShortCode method.now → result ≡ true }
{
    match &method.body {
        LinkedBody::Code(code) => code.instructions.len() <= u32::MAX as usize,
        LinkedBody::Native(_) => true,
        LinkedBody::Absent => true,
    }
}

fn have_short_code(methods: &[LinkedMethod]) -> bool
    ensures yes { result ≡ true → All HasShortCode methods.now }
    ensures no { All HasShortCode methods.now → result ≡ true }
{
    for method in methods {
        if !has_short_code(method) {
            return false;
        }
    }
    true
}

/// Whether the instructions of all methods have numbers: no code has 2^32 of them. By the rules of
/// class files each code has fewer, so this is true of each program that is read.
pub fn is_numbered(program: &Program) -> bool
    ensures yes { result ≡ true → AreNumbered program.now }
    ensures no { AreNumbered program.now → result ≡ true }
{
    let count = program.len() as u32;
    for id in 0..count {
        let linked = program.info(ClassId(id)).linked();
        if !have_short_code(linked.methods.as_slice()) {
            return false;
        }
    }
    true
}
