//! The calls of a test's script.

ghost use Rattle.std.specs.Prelude.{◌≡◌, ◌∷◌, [], true, false, None, Some, IfSome, IfNone, IsSome, slice_get};
ghost use Rattle.std.specs.Option.{option_copied};

use class_model::Seq;
use class_table::Call;
use std::marker::Model;

/// The calls of a script, of which so many were taken. The last one that was taken may run.
#[derive(Drop)]
pub struct Script {
    calls: Seq<Call>,
    taken: usize,
    runs: bool,
}

impl Model for Script {
    ghost use Rattle.std.specs.Prelude.{◌≡◌, ◌-◌, ◌≤◌, ◌<◌, true, drop, length};
    ghost use Rattle.jvm_world.specs.Scripts.{Calls, running_at};

    ghost Value = { Calls };

    ghost view = { λ s.
        record { running = running_at s.runs (s.taken - 1) s.calls; rest = drop s.taken s.calls } };

    ghost invariant = { λ s. (s.taken ≤ length s.calls) × (s.runs ≡ true → 0 < s.taken) };
}

impl Script {
    /// All calls are still to come.
    pub fn new(calls: Seq<Call>) -> Script
        ensures { result ≡ record { running = None; rest = calls } }
    {
        Script {
            calls,
            taken: 0,
            runs: false,
        }
    }

    /// The next call.
    pub fn next(&self) -> Option<&Call>
        ensures next { option_copied result ≡ slice_get self.now.rest 0 }
        ensures none { IfNone result (self.now.rest ≡ []) }
    {
        self.calls.get(self.taken)
    }

    /// The call that runs.
    pub fn running(&self) -> Option<&Call>
        ensures { option_copied result ≡ self.now.running }
    {
        if !self.runs {
            return None;
        }
        self.calls.get(self.taken - 1)
    }

    /// The next call runs from now on.
    pub fn take(&mut self)
        requires { IsSome (slice_get self.old.rest 0) }
        ensures running { self.new.running ≡ slice_get self.old.rest 0 }
        ensures rest { IfSome self.new.running (λ c. self.old.rest ≡ c ∷ self.new.rest) }
    {
        if self.taken >= self.calls.len() {
            return;
        }
        self.taken += 1;
        self.runs = true;
    }

    /// No call runs any more.
    pub fn finish(&mut self)
        ensures { self.new ≡ record self.old { running = None } }
    {
        self.runs = false;
    }
}
