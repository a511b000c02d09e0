//! Names and descriptors of methods, by which a method is found to be declared twice (JVMS 4.6).

ghost use Rattle.std.specs.Prelude.{[], IfOk};
ghost use Rattle.type_verifier.specs.ProgramHeads.{NumberIs, AreMet, IsMet};

use class_link::LinkedMethod;
use class_model::{Memory, Name};
use std::alloc::Global;
use std::collections::{BTreeMap, BTreeSet};

/// The heads of methods that were met: names and descriptors by numbers. Each text is kept once,
/// however many methods have it.
#[derive(Drop)]
pub struct Heads {
    pub words: BTreeMap<Name, usize>,
    pub met: BTreeSet<(usize, usize)>,
}

// The number of a text, which gets one unless it has one.
fn number(words: &mut BTreeMap<Name, usize>, text: &Name) -> Result<usize, Memory>
    ensures { IfOk result (λ k. NumberIs words.old words.new text.now k) }
{
    if let Some(number) = words.get(text) {
        return Ok(*number);
    }
    let number = words.len();
    words.insert(text.copy()?, number)?;
    Ok(number)
}

impl Heads {
    /// None was met.
    pub fn new(alloc: Global) -> Heads
        ensures { AreMet result [] }
    {
        Heads {
            words: BTreeMap::new(alloc),
            met: BTreeSet::new(alloc),
        }
    }

    /// Meets a method, and answers whether none of its name and descriptor was met before.
    pub fn meet(&mut self, method: &LinkedMethod) -> Result<bool, Memory>
        ensures { IfOk result (λ first. IsMet self.old self.new method.now first) }
    {
        let name = number(&mut self.words, &method.name)?;
        let desc = number(&mut self.words, &method.desc)?;
        let first = self.met.insert((name, desc))?;
        Ok(first)
    }
}
