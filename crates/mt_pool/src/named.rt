//! What an index names.

ghost use Rattle.std.specs.Prelude.{◌≡◌, is_some, option_and_then};
ghost use Rattle.std.specs.Option.{option_copied};
ghost use Rattle.class_model.specs.Pool.{entry_of, text_of, class_name_of, class_in, pair_in};

use class_model::{Const, Name};

/// The entry of an index: it counts the entries from 1.
pub fn entry_of(pool: &[Const], index: u16) -> Option<&Const>
    ensures { option_copied result ≡ entry_of pool.now index }
{
    if index == 0 {
        return None;
    }
    pool.get(usize::from(index) - 1)
}

/// The text that an index names.
pub fn text_of(pool: &[Const], index: u16) -> Option<&Name>
    ensures { option_copied result ≡ text_of pool.now index }
{
    match entry_of(pool, index) {
        Some(Const::Utf8(units)) => Some(units),
        _ => None,
    }
}

/// The name of the class that an index names.
pub fn class_name_of(pool: &[Const], index: u16) -> Option<&Name>
    ensures { option_copied result ≡ class_name_of pool.now index }
{
    match entry_of(pool, index) {
        Some(Const::Class(name)) => text_of(pool, *name),
        _ => None,
    }
}

/// The index names a class.
pub fn names_class(pool: &[Const], index: u16) -> bool
    ensures { result ≡ is_some (option_and_then class_in (entry_of pool.now index)) }
{
    matches!(entry_of(pool, index), Some(Const::Class(_)))
}

/// The name and the descriptor of the pair that an index names, by their indices.
pub fn pair_of(pool: &[Const], index: u16) -> Option<(u16, u16)>
    ensures { result ≡ option_and_then pair_in (entry_of pool.now index) }
{
    match entry_of(pool, index) {
        Some(Const::Pair(name, desc)) => Some((*name, *desc)),
        _ => None,
    }
}
