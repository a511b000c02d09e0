//! Tests by number, as pairs of the numbers of their names.

ghost use Rattle.std.specs.Prelude.{◌≡◌, ◌<◌, ◌^◌, [], All, length, IfOk, OnOk};
ghost use Rattle.history_index.specs.Numbers.{AddsPair, ArePairs, HasPair, pair_number, pairs_in};

use class_model::Memory;
use history_file::Row;
use std::alloc::Global;
use std::collections::BTreeMap;

/// Tests, each once.
#[derive(Drop)]
pub struct Pairs {
    numbers: BTreeMap<(u32, u32), u32>,
    pairs: Vec<(u32, u32)>,
}

impl Pairs {
    /// None.
    pub fn new(alloc: Global) -> Pairs
        ensures known { ArePairs result }
        ensures none { pairs_in result ≡ [] }
    {
        Pairs {
            numbers: BTreeMap::new(alloc),
            pairs: Vec::new(alloc),
        }
    }

    // One test more, if it isn't there.
    #[tactic(auto, using(crate::proofs::Testing::pair_kept))]
    fn add(&mut self, pair: (u32, u32)) -> Result<(), Memory>
        requires known { ArePairs self.old }
        requires room { length (pairs_in self.old) < 2 ^ 32 }
        ensures { OnOk result (AddsPair pair self.old self.new) }
    {
        if self.numbers.contains_key(&pair) {
            return Ok(());
        }
        let number = self.pairs.len() as u32;
        self.numbers.insert(pair, number)?;
        self.pairs.push(pair)?;
        Ok(())
    }

    /// The tests of these records.
    pub fn of(alloc: Global, rows: &[Row]) -> Result<Pairs, Memory>
        requires { length rows.now < 2 ^ 32 }
        ensures { IfOk result (λ p. ArePairs p × All (HasPair (pairs_in p)) rows.now) }
    {
        let mut pairs = Pairs::new(alloc);
        for row in rows {
            pairs.add((row.test_class, row.test_method))?;
        }
        Ok(pairs)
    }

    /// The number of a test, if it is there.
    pub fn get(&self, pair: (u32, u32)) -> Option<u32>
        requires { ArePairs self.now }
        ensures { result ≡ pair_number (pairs_in self.now) pair }
    {
        self.numbers.get(&pair).copied()
    }

    /// The tests, in the order of their numbers.
    pub fn as_slice(&self) -> &[(u32, u32)]
        ensures { result.now ≡ pairs_in self.now }
    {
        self.pairs.as_slice()
    }
}
