//! Tests in their order, from the bits of words.

ghost use Rattle.std.specs.Prelude.{◌≡◌, ℕ, ◌<◌, ◌+◌, ◌*◌, ◌^◌, ◌++◌, true, map, length, OnOk};
ghost use Rattle.std.specs.Io.Iter.{u64_saturate};
ghost use Rattle.line_coverage.specs.Words.{bits_of, has_test, is_set, tests_from, tests_of};

use class_model::Memory;

// Adds the tests of a word, whose first bit is the test `base`.
fn push_word(base: u32, word: u64, tests: &mut Vec<u32>) -> Result<(), Memory>
    requires { base + 64 < 2 ^ 32 + 1 }
    ensures { OnOk result (tests.new.items ≡ tests.old.items ++ tests_of base word) }
{
    let mut rest = word;
    while rest != 0 {
        let bit = rest.trailing_zeros();
        tests.push(base + bit)?;
        rest &= !(1 << bit);
    }
    Ok(())
}

// Adds the tests of the word at a place. One without a test costs no more than a look.
#[tactic(auto, using(crate::proofs::Walks::no_tests))]
fn push_place(at: usize, word: u64, tests: &mut Vec<u32>) -> Result<(), Memory>
    requires { (b : ℕ) → b < 64 → is_set word b ≡ true → 64 * at + b < 2 ^ 32 }
    ensures { OnOk result (tests.new.items ≡ tests.old.items ++ tests_of (64 * at) word) }
{
    if word == 0 {
        return Ok(());
    }
    push_word(64 * at as u32, word, tests)
}

/// Adds the tests of these words.
pub fn push_tests(words: &[u64], tests: &mut Vec<u32>) -> Result<(), Memory>
    requires { (t : ℕ) → has_test words.now t ≡ true → t < 2 ^ 32 }
    ensures { OnOk result (tests.new.items ≡ tests.old.items ++ tests_from 0 words.now) }
{
    for (at, word) in words.iter().enumerate() {
        push_place(at, *word, tests)?;
    }
    Ok(())
}

// How many bits of a word are set.
fn count_word(word: u64) -> u64
    ensures { result ≡ length (bits_of word) }
{
    u64::from(word.count_ones())
}

/// How many tests these words have. The count stays at 2^64 - 1.
pub fn count_tests(words: &[u64]) -> u64
    ensures { result ≡ u64_saturate (length (tests_from 0 words.now)) }
{
    let mut count = 0u64;
    for word in words {
        count = count.saturating_add(count_word(*word));
    }
    count
}
