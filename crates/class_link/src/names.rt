//! Names of classes and arrays, taken apart (JVMS 4.3.2, 4.4.1).

ghost use Rattle.std.specs.Prelude.{◌≡◌};
ghost use Rattle.program_rules.specs.Names.{is_array_name, without_last};

/// Whether a name is an array's descriptor.
pub fn is_array_name(name: &[u16]) -> bool
    ensures { result ≡ is_array_name name.now }
{
    match name {
        [] => false,
        [unit, ..] => *unit == b'[' as u16,
    }
}

/// A text without its last unit.
#[tactic(auto, using(crate::proofs::NameLaws::without_last_take))]
pub fn without_last(text: &[u16]) -> &[u16]
    ensures { result.now ≡ without_last text.now }
{
    match text {
        [front @ .., _] => front,
        [] => text,
    }
}
