//! Tests as the bits of words.

ghost use Rattle.std.specs.Prelude.{◌≡◌, ℕ, ◌<◌, length, OnOk};
ghost use Rattle.std.proofs.Common.{get_or};
ghost use Rattle.line_coverage.specs.Words.{AddsTest, KeepsOtherTests, SetsBit, has_test};

use class_model::Memory;

// Makes sure that there is a word at this place. Those that are added have no test.
fn make_word(words: &mut Vec<u64>, at: usize) -> Result<(), Memory>
    ensures same { (i : ℕ) → get_or words.new.items i 0 ≡ get_or words.old.items i 0 }
    ensures place { OnOk result (at < length words.new.items) }
{
    while words.len() <= at {
        words.push(0)?;
    }
    Ok(())
}

// Sets a bit of a word.
fn set_bit(words: &mut [u64], at: usize, bit: u32)
    requires at { at < length words.old }
    requires bit { bit < 64 }
    ensures { SetsBit at bit words.old words.new }
{
    words[at] |= 1 << bit;
}

/// Adds a test. Where memory runs out the tests are as they were.
pub fn add_test(words: &mut Vec<u64>, test: usize) -> Result<(), Memory>
    ensures ok { OnOk result (AddsTest test words.old.items words.new.items) }
    ensures others { KeepsOtherTests test words.old.items words.new.items }
{
    make_word(words, test / 64)?;
    set_bit(words, test / 64, (test % 64) as u32);
    Ok(())
}

/// Whether a test is among these.
pub fn has_test(words: &[u64], test: usize) -> bool
    ensures { result ≡ has_test words.now test }
{
    match words.get(test / 64) {
        Some(word) => (*word >> (test % 64)) & 1 == 1,
        None => false,
    }
}
