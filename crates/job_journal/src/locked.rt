//! The state of a journal, with the records that were loaded, by name.

ghost use Rattle.std.specs.Prelude.{◌≡◌, ◌≤◌, List, [], true, false, OnOk, IfSome};
ghost use Rattle.history_rules.specs.Laws.{IsFormed};
ghost use Rattle.record_rules.specs.declared.profile_number.TheConstants.{PROFILE_NUMBER};
ghost use Rattle.record_rules.specs.declared.record.RunRecord.{RunRecord};
ghost use Rattle.job_journal.specs.Keeping.{HasGrown, HasLoaded, IsAcknowledged, IsBeginning, IsSafe};
ghost use Rattle.job_journal.specs.Keeping.{TellsKnown, told_by};

use crate::made::KnownRecord;
use crate::state::JournalState;
use mt_edge::{EdgeFault, Keeper};
use std::marker::{Brand, Model, PhantomData};

/// Which records were loaded when a journal was opened. Who opens it picks them: behind a lock nothing
/// else tells them.
pub trait Loaded {
    ghost records: { List RunRecord };
}

// None, unless the call that names them picks others.
impl Loaded for Brand {
    ghost records = { [] };
}

/// What lies under the lock.
pub struct LockedState<K: Keeper, M: KnownRecord, J: Loaded> {
    state: JournalState<K, M>,
    loaded: PhantomData<J>,
}

impl<K: Keeper, M: KnownRecord, J: Loaded> Model for LockedState<K, M, J> {
    ghost use Rattle.std.specs.Prelude.{IfSome};
    ghost use Rattle.record_rules.specs.declared.profile_number.TheConstants.{PROFILE_NUMBER};
    ghost use Rattle.job_journal.specs.Keeping.{HasLoaded, Taken};

    ghost Value = { Taken K };

    ghost view = { λ s. s.state };

    ghost invariant = { λ s. IfSome (K.kept s.state.keeper)
        (HasLoaded PROFILE_NUMBER s.state.loaded J.records) };
}

impl<K: Keeper, M: KnownRecord, J: Loaded> LockedState<K, M, J> {
    /// That of a journal with these loaded records.
    pub fn new(state: JournalState<K, M>) -> LockedState<K, M, J>
        requires { IfSome (K.kept state.keeper)
            (HasLoaded PROFILE_NUMBER state.loaded J.records) }
        ensures { result ≡ state }
    {
        LockedState {
            state,
            loaded: PhantomData,
        }
    }

    /// `add` of the state.
    pub fn add(&mut self, made: &M) -> Result<(), EdgeFault>
        requires { IsFormed (M.entry made.now) }
        ensures told { result ≡ told_by self.new.failed self.new.marked }
        ensures kept { OnOk result (IfSome (K.kept self.new.keeper)
            (IsAcknowledged PROFILE_NUMBER (K.durable self.new.keeper) (M.entry made.now))) }
        ensures longer { HasGrown (K.kept self.old.keeper) (K.kept self.new.keeper) }
        ensures after { self.old.failed ≡ true → self.new ≡ self.old }
    {
        self.state.add(made)
    }

    /// `fault` of the state.
    pub fn fault(&self) -> Result<(), EdgeFault>
        ensures { result ≡ told_by self.now.failed self.now.marked }
    {
        self.state.fault()
    }

    /// `marked` of the state.
    pub fn marked(&self) -> u64
        ensures { result ≡ self.now.marked }
    {
        self.state.marked()
    }

    /// The keeper.
    pub fn into_keeper(self) -> K
        ensures same { result ≡ self.keeper }
        ensures text { IsBeginning PROFILE_NUMBER (K.kept result) }
        ensures known { IfSome (K.kept result)
            (TellsKnown M.holds PROFILE_NUMBER J.records) }
        ensures safe { self.failed ≡ false →
            IfSome (K.kept result) (IsSafe PROFILE_NUMBER (K.durable result)) }
        ensures unmarked { self.failed ≡ false → self.marked ≡ 0 }
        ensures marks { self.marked ≤ K.writing result }
    {
        let LockedState { state, loaded: _ } = self;
        state.into_keeper()
    }
}
