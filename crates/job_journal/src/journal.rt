//! A journal that several threads add to.

ghost use Rattle.std.specs.Prelude.{◌≡◌, ◌≤◌, ◌<◌, All, OnOk, IfSome, IsErrOf};
ghost use Rattle.history_rules.specs.Laws.{IsFormed};
ghost use Rattle.mt_edge.specs.declared.outside.EdgeFault.TheVariants.{Failed};
ghost use Rattle.record_rules.specs.declared.profile_number.TheConstants.{PROFILE_NUMBER};
ghost use Rattle.job_journal.specs.Keeping.{HasLoaded, IsBeginning, IsSafe, RecordsAll, TellsKnown, told_by};

use crate::locked::{Loaded, LockedState};
use crate::made::KnownRecord;
use crate::state::JournalState;
use mt_edge::{EdgeFault, Keeper, Recorder};
use std::sync::{Mutex, Wait};

/// A journal, under a lock. A record that hasn't the form of a history isn't kept.
pub struct Journal<K: Keeper, M: KnownRecord, J: Loaded> {
    state: Mutex<LockedState<K, M, J>>,
}

impl<K: Keeper, M: KnownRecord, J: Loaded> Recorder<M> for Journal<K, M, J> {
    fn keep<W: Wait>(&self, rt: &W, made: &M) -> Result<(), EdgeFault> {
        if !made.is_formed() {
            return Ok(());
        }
        self.state.lock(rt).add(made)
    }
}

impl<K: Keeper, M: KnownRecord, J: Loaded> Journal<K, M, J> {
    /// The journal of a state, whose loaded records are named by `J`.
    pub fn new(state: JournalState<K, M>) -> Journal<K, M, J>
        requires { IfSome (K.kept state.keeper)
            (HasLoaded PROFILE_NUMBER state.loaded J.records) }
    {
        Journal {
            state: Mutex::new(LockedState::new(state)),
        }
    }

    /// Takes the state out of the lock and adds what is due: the keeper, how many of its calls have
    /// failed since the opening, and whether all that was ever added stands there.
    pub fn close(self, due: &[&M]) -> (K, u64, Result<(), EdgeFault>)
        requires { All (λ m. IsFormed (M.entry m.now)) due.now }
        ensures text { IsBeginning PROFILE_NUMBER (K.kept result.0) }
        ensures known { IfSome (K.kept result.0)
            (TellsKnown M.holds PROFILE_NUMBER J.records) }
        ensures marks { result.1 ≤ K.writing result.0 }
        ensures unmarked { OnOk result.2 (result.1 ≡ 0) }
        ensures safe { OnOk result.2
            (IfSome (K.kept result.0) (IsSafe PROFILE_NUMBER (K.durable result.0))) }
        ensures stands { OnOk result.2
            (IfSome (K.kept result.0) (RecordsAll PROFILE_NUMBER (λ m. M.entry m.now) due.now)) }
        ensures cause { IsErrOf result.2 Failed → 0 < result.1 }
    {
        let Journal { state } = self;
        let mut state = state.into_inner();
        let added = add_all(&mut state, due);
        let marked = state.marked();
        (state.into_keeper(), marked, added)
    }
}

// Adds all that is due, up to the first that fails, and tells whether any ever did.
fn add_all<K: Keeper, M: KnownRecord, J: Loaded>(
    state: &mut LockedState<K, M, J>,
    due: &[&M],
) -> Result<(), EdgeFault>
    requires { All (λ m. IsFormed (M.entry m.now)) due.now }
    ensures told { result ≡ told_by state.new.failed state.new.marked }
    ensures stands { OnOk result (IfSome (K.kept state.new.keeper)
        (RecordsAll PROFILE_NUMBER (λ m. M.entry m.now) due.now)) }
{
    for made in due {
        state.add(made)?;
    }
    state.fault()
}
