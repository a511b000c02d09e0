//! The words of a method's arguments.

ghost use Rattle.std.specs.Prelude.{◌≡◌};
ghost use Rattle.mt_insn.specs.Named.{is_counted, words_counted};

use class_model::{CheckedPool, Const, DescFault};

/// So many words are those of the arguments and of a receiver.
fn is_sum(count: u8, args: Result<u128, DescFault>) -> bool
    ensures { result ≡ words_counted count args }
{
    match args {
        Ok(words) => words < 255 && u128::from(count) == 1 + words,
        Err(_) => false,
    }
}

/// The count is that of the interface's method that an index names: the words of its arguments and
/// of its receiver.
#[tactic(auto, using(crate::proofs::Counted::by_words))]
pub fn is_counted(pool: &CheckedPool, index: u16, count: u8) -> bool
    ensures { result ≡ is_counted pool.now index count }
{
    let Some(Const::IMethod(_, pair)) = pool.entry(index) else {
        return false;
    };
    let Some(Const::Pair(_, desc)) = pool.entry(*pair) else {
        return false;
    };
    match pool.text(*desc) {
        Some((_, verdict)) => is_sum(count, verdict.method),
        None => false,
    }
}
