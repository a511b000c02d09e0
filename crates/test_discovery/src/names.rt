//! Names of the constant pool, and those that are asked for.

ghost use Rattle.std.specs.Prelude.{◌≡◌};
ghost use Rattle.program_rules.specs.Names.{same, instance_initializer as initializer, plain_descriptor};
ghost use Rattle.test_discovery.specs.Notes.{names_text};

use class_model::Const;
use mt_pool::text_of;

/// `<init>`
pub const INITIALIZER: [u16; 6] = [60, 105, 110, 105, 116, 62];

/// `()V`
const PLAIN: [u16; 3] = [40, 41, 86];

/// The index names `<init>`.
pub fn names_initializer(pool: &[Const], index: u16) -> bool
    ensures { result ≡ names_text pool.now index initializer }
{
    match text_of(pool, index) {
        Some(text) => text.as_slice() == INITIALIZER.as_slice(),
        None => false,
    }
}

/// The index names the descriptor without arguments and result.
pub fn names_plain_descriptor(pool: &[Const], index: u16) -> bool
    ensures { result ≡ names_text pool.now index plain_descriptor }
{
    match text_of(pool, index) {
        Some(text) => text.as_slice() == PLAIN.as_slice(),
        None => false,
    }
}

/// The descriptor is that without arguments and result.
pub fn is_plain_descriptor(desc: &[u16]) -> bool
    ensures { result ≡ same desc.now plain_descriptor }
{
    desc == PLAIN.as_slice()
}
