//! The open monitorenters of objects.

ghost use Rattle.std.specs.Prelude.{◌≡◌, ℕ, ◌+◌, ◌-◌, ◌<◌, ◌^◌, nat_eq, if◌then◌else◌, [], length, Ok, true, false, OnOk, OnErr, IfOk};
ghost use Rattle.std.proofs.Common.{get_or};
ghost use Rattle.jvm_world.specs.Holding.{opened, Opens};

use class_model::Memory;
use jvm_marks::make_place;
use std::alloc::Global;
use std::marker::Model;

/// How many monitorenters of each object are open, for each object up to the last one that had any.
#[derive(Drop)]
pub struct Monitors {
    counts: Vec<u64>,
}

impl Model for Monitors {
    ghost use Rattle.std.specs.Prelude.{List, ℕ};

    ghost Value = { List ℕ };

    ghost view = { λ m. m.counts.items };
}

impl Monitors {
    /// None is open.
    pub fn new(alloc: Global) -> Monitors
        ensures { result ≡ [] }
    {
        Monitors {
            counts: Vec::new(alloc),
        }
    }

    /// How many are open for an object.
    pub fn count(&self, object: u32) -> u64
        ensures { result ≡ opened object self.now }
    {
        count_in(&self.counts, object as usize)
    }

    /// One more is open for an object. Where memory runs out each object has as many as before.
    pub fn open(&mut self, object: u32) -> Result<(), Memory>
        requires { opened object self.old + 1 < 2 ^ 64 }
        ensures opened { OnOk result (Opens object (opened object self.old + 1) self.old self.new) }
        ensures err { OnErr result ((x : ℕ) → opened x self.new ≡ opened x self.old) }
    {
        make_place(&mut self.counts, object as usize, 0)?;
        let count = count_in(&self.counts, object as usize);
        put_count(&mut self.counts, object as usize, count + 1);
        Ok(())
    }

    /// One less is open for an object. It is false, and nothing changes, where none was.
    pub fn close(&mut self, object: u32) -> bool
        ensures closed { result ≡ true →
            Opens object (opened object self.old - 1) self.old self.new }
        ensures there { result ≡ true → 0 < opened object self.old }
        ensures none { result ≡ false → opened object self.old ≡ 0 }
        ensures same { result ≡ false → self.new ≡ self.old }
    {
        let count = count_in(&self.counts, object as usize);
        if count == 0 {
            return false;
        }
        put_count(&mut self.counts, object as usize, count - 1);
        true
    }
}

// How many are open for an object.
fn count_in(counts: &[u64], object: usize) -> u64
    ensures { result ≡ opened object counts.now }
{
    let Some(count) = counts.get(object) else {
        return 0;
    };
    *count
}

// Puts a count where there is place for it.
fn put_count(counts: &mut [u64], at: usize, count: u64)
    requires { at < length counts.old }
    ensures { Opens at count counts.old counts.new }
{
    counts[at] = count;
}
