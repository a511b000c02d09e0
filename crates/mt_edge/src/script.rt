ghost use Rattle.std.specs.Prelude.{◌≡◌, List, ℕ};
ghost use Rattle.mt_edge.specs.Held.{fails, first_call, after_call};

use std::marker::Model;

/// Which calls of an object in memory are to fail.
#[derive(Drop)]
pub struct CallScript {
    call: u64,
    failing: Vec<u64>,
}

impl Model for CallScript {
    ghost use Rattle.mt_edge.specs.Held.{Script};

    ghost Value = { Script };

    ghost view = { λ s. record { call = s.call; failing = s.failing.items } };
}

impl CallScript {
    /// The calls with these numbers, counted from 0, are to fail.
    pub fn new(failing: Vec<u64>) -> CallScript
        ensures { result ≡ first_call failing.items }
    {
        CallScript { call: 0, failing }
    }

    /// Counts a call, and tells whether it is to fail.
    pub fn next_fails(&mut self) -> bool
        ensures answer { result ≡ fails self.old }
        ensures counted { self.new ≡ after_call self.old }
    {
        let call = self.call;
        self.call = call.saturating_add(1);
        self.failing.contains(&call)
    }
}
