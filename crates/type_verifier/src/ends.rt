//! Where code ends.
#![tactic(auto, unfolding(class_link::specs::View::instruction_of))]

ghost use Rattle.std.specs.Prelude.{◌≡◌};
ghost use Rattle.type_rules.specs.Rows.{never_falls};
ghost use Rattle.class_link.specs.View.{table_of, lookup_of};
ghost use Rattle.std.specs.Prelude.{slice_get};
ghost use Rattle.type_rows.specs.Means.{meant};
ghost use Rattle.type_verifier.specs.Passes.{IsOut};

use class_link::{Instruction, Switch};
use type_rows::Site;

fn is_table(switches: &[Switch], number: u32) -> bool
    ensures { result ≡ never_falls (table_of (slice_get switches.now number)) }
{
    match switches.get(number as usize) {
        Some(Switch::Table(_, _, _)) => true,
        Some(Switch::Lookup(_, _)) => false,
        None => false,
    }
}

fn is_lookup(switches: &[Switch], number: u32) -> bool
    ensures { result ≡ never_falls (lookup_of (slice_get switches.now number)) }
{
    match switches.get(number as usize) {
        Some(Switch::Lookup(_, _)) => true,
        Some(Switch::Table(_, _, _)) => false,
        None => false,
    }
}

// Whether the next instruction never begins behind this one.
fn never_falls(site: &Site, instruction: Instruction) -> bool
    ensures { result ≡ never_falls (meant site.now instruction) }
{
    match instruction {
        Instruction::Goto(_) => true,
        Instruction::TableSwitch(number) => is_table(site.code.switches.as_slice(), number),
        Instruction::LookupSwitch(number) => is_lookup(site.code.switches.as_slice(), number),
        Instruction::IntReturn => true,
        Instruction::LongReturn => true,
        Instruction::ReferenceReturn => true,
        Instruction::PlainReturn => true,
        Instruction::Throw => true,
        _ => false,
    }
}

/// Whether this is the last instruction, and the next one would begin behind it (rule 4).
pub fn falls_out(site: &Site, at: u32) -> bool
    ensures { IsOut site.now at result }
{
    match site.code.instructions.get(at as usize) {
        Some(instruction) => {
            if (at as usize) + 1 < site.code.instructions.len() {
                return false;
            }
            !never_falls(site, *instruction)
        }
        None => true,
    }
}
