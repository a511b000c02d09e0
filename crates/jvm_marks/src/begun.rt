ghost use Rattle.std.specs.Prelude.{◌≡◌, [], ◌∷◌, OnOk};
ghost use Rattle.jvm_marks.specs.Marks.{state_among};

use crate::slots::make_place;
use class_model::{ClassId, Memory};
use machine_rules::InitState;
use std::alloc::Global;
use std::marker::Model;

/// How far the initialisation of classes has come (JVMS 5.5). Contracts see the marks by class
/// numbers, the newest first; a class without one is fresh.
#[derive(Drop)]
pub struct Begun {
    marks: Vec<(ClassId, InitState)>,
    states: Vec<InitState>,
}

impl Model for Begun {
    ghost use Rattle.std.specs.Prelude.{List, map, reverse, ℕ};
    ghost use Rattle.machine_rules.specs.declared.machine.InitState.{InitState};
    ghost use Rattle.jvm_marks.specs.Marks.{AreStatesOf};

    ghost Value = { List (ℕ × InitState) };

    ghost view = { λ b. map (λ x. (x.0.0, x.1)) (reverse b.marks.items) };

    ghost invariant = { λ b.
        AreStatesOf b.states.items (map (λ x. (x.0.0, x.1)) (reverse b.marks.items)) };
}

impl Begun {
    /// Each class is fresh.
    pub fn new(alloc: Global) -> Begun
        ensures { result ≡ [] }
    {
        Begun {
            marks: Vec::new(alloc),
            states: Vec::new(alloc),
        }
    }

    /// How far a class has come.
    pub fn state(&self, class: ClassId) -> InitState
        ensures { result ≡ state_among class.0 self.now }
    {
        match self.states.get(class.0 as usize) {
            Some(state) => *state,
            None => InitState::Fresh,
        }
    }

    /// Marks a class.
    pub fn mark(&mut self, class: ClassId, state: InitState) -> Result<(), Memory>
        ensures { OnOk result (self.new ≡ (class.0, state) ∷ self.old) }
    {
        let place = class.0 as usize;
        make_place(&mut self.states, place, InitState::Fresh)?;
        self.marks.push((class, state))?;
        self.states[place] = state;
        Ok(())
    }
}
