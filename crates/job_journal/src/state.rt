//! The value under a journal's lock.

ghost use Rattle.std.specs.Prelude.{◌≡◌, ◌≢◌, ◌≤◌, ◌⊎◌, ℕ, true, false, length, OnOk, OnErr, IfOk, IfErr, IfSome, IsSomeAnd};
ghost use Rattle.history_rules.specs.Laws.{IsFormed};
ghost use Rattle.mt_edge.specs.Causes.{HasCause, Rose};
ghost use Rattle.record_rules.specs.declared.profile_number.TheConstants.{PROFILE_NUMBER};
ghost use Rattle.job_journal.specs.Opening.{Opens, FailsToOpen};
ghost use Rattle.job_journal.specs.Keeping.{Keeps, GainsOnce, HasGrown, HasLoaded, HoldsBehind};
ghost use Rattle.job_journal.specs.Keeping.{IsAcknowledged, IsAdded, IsBeginning, IsSafe, told_by};

use crate::loading::open_text;
use crate::made::KnownRecord;
use crate::opening::JournalFault;
use crate::pieces::put_piece;
use crate::tables::Tables;
use class_model::Seq;
use mt_edge::{EdgeFault, Keeper};
use record_rules::RunRecord;
use std::alloc::Global;
use std::marker::{Model, PhantomData};

/// The value under a journal's lock: its keeper, with what is needed to add records to it.
pub struct JournalState<K: Keeper, M: KnownRecord> {
    keeper: K,
    alloc: Global,
    tables: Tables,
    loaded: usize,
    failed: bool,
    marked: u64,
    made: PhantomData<M>,
}

impl<K: Keeper, M: KnownRecord> Model for JournalState<K, M> {
    ghost use Rattle.record_rules.specs.declared.profile_number.TheConstants.{PROFILE_NUMBER};
    ghost use Rattle.job_journal.specs.Keeping.{Taken, Keeps};

    ghost Value = { Taken K };

    ghost view = { λ s. record {
      keeper = s.keeper;
      loaded = s.loaded;
      failed = s.failed;
      marked = s.marked;
    } };

    ghost invariant = { λ s. Keeps M.holds PROFILE_NUMBER (K.kept s.keeper) (K.durable s.keeper)
        (K.writing s.keeper) s.tables s.loaded s.failed s.marked };
}

// Adds a record to what a keeper keeps, unless it was added before.
fn add_entry<K: Keeper, M: KnownRecord>(
    alloc: Global,
    keeper: &mut K,
    tables: &mut Tables,
    loaded: usize,
    made: &M,
) -> Result<(), EdgeFault>
    requires keeps { Keeps M.holds PROFILE_NUMBER (K.kept keeper.old) (K.durable keeper.old)
        (K.writing keeper.old) tables.old loaded false 0 }
    requires form { IsFormed (M.entry made.now) }
    ensures ok { OnOk result (Keeps M.holds PROFILE_NUMBER (K.kept keeper.new)
        (K.durable keeper.new) (K.writing keeper.new) tables.new loaded false 0) }
    ensures err { OnErr result ((more : ℕ) → more ≤ K.writing keeper.new →
        Keeps M.holds PROFILE_NUMBER (K.kept keeper.new) (K.durable keeper.new)
        (K.writing keeper.new) tables.new loaded true more) }
    ensures kept { OnOk result (IfSome (K.kept keeper.new)
        (IsAcknowledged PROFILE_NUMBER (K.durable keeper.new) (M.entry made.now))) }
    ensures gained { OnOk result (IfSome (K.kept keeper.old)
        (GainsOnce PROFILE_NUMBER loaded (M.entry made.now) (K.kept keeper.new))) }
    ensures again { IsSomeAnd (K.kept keeper.old)
        (IsAdded PROFILE_NUMBER loaded (M.entry made.now)) → keeper.new ≡ keeper.old }
    ensures longer { HasGrown (K.kept keeper.old) (K.kept keeper.new) }
    ensures durable { K.durable keeper.old ≤ K.durable keeper.new }
    ensures cause { HasCause (K.writing keeper.old) (K.writing keeper.new) result }
    ensures other { K.reading keeper.new ≡ K.reading keeper.old }
{
    let entry = made.entry();
    let added = tables.add(alloc, entry)?;
    match added {
        None => Ok(()),
        Some(piece) => {
            let bytes = piece.as_slice();
            put_piece(keeper, bytes)
        }
    }
}

impl<K: Keeper, M: KnownRecord> JournalState<K, M> {
    /// The journal that a keeper keeps: its text is completed and made durable. Its records are told.
    pub fn open(
        alloc: Global,
        mut keeper: K,
    ) -> Result<(JournalState<K, M>, Seq<RunRecord>), (K, JournalFault)>
        ensures opened { IfOk result (λ x. IfSome (K.kept keeper)
            (Opens PROFILE_NUMBER (K.kept x.0.keeper) x.1)) }
        ensures loaded { IfOk result (λ x. IfSome (K.kept x.0.keeper)
            (HasLoaded PROFILE_NUMBER x.0.loaded x.1)) }
        ensures safe { IfOk result (λ x. IfSome (K.kept x.0.keeper)
            (IsSafe PROFILE_NUMBER (K.durable x.0.keeper))) }
        ensures begun { IfOk result (λ x. (x.0.failed ≡ false) × (x.0.marked ≡ 0)) }
        ensures fault { IfErr result (λ x. FailsToOpen PROFILE_NUMBER x.1 (K.reading keeper)
            (K.reading x.0) (K.writing keeper) (K.writing x.0) (K.kept keeper) (K.kept x.0)) }
    {
        match open_text(alloc, &mut keeper) {
            Err(fault) => Err((keeper, fault)),
            Ok((numbers, records)) => {
                let tables = Tables::new(alloc, numbers);
                let state = JournalState {
                    keeper,
                    alloc,
                    tables,
                    loaded: records.len(),
                    failed: false,
                    marked: 0,
                    made: PhantomData,
                };
                Ok((state, records))
            }
        }
    }

    /// How many calls of the keeper have failed.
    pub fn marked(&self) -> u64
        ensures mark { result ≡ self.now.marked }
        ensures most { result ≤ K.writing self.now.keeper }
    {
        self.marked
    }

    /// Adds a record as one piece and makes it durable, unless it was added before. Once that has
    /// failed, no call of the keeper is made any more.
    pub fn add(&mut self, made: &M) -> Result<(), EdgeFault>
        requires { IsFormed (M.entry made.now) }
        ensures told { result ≡ told_by self.new.failed self.new.marked }
        ensures kept { OnOk result (IfSome (K.kept self.new.keeper)
            (IsAcknowledged PROFILE_NUMBER (K.durable self.new.keeper) (M.entry made.now))) }
        ensures gained { OnOk result (IfSome (K.kept self.old.keeper)
            (GainsOnce PROFILE_NUMBER self.old.loaded (M.entry made.now)
            (K.kept self.new.keeper))) }
        ensures again { IsSomeAnd (K.kept self.old.keeper)
            (IsAdded PROFILE_NUMBER self.old.loaded (M.entry made.now)) →
            self.new.keeper ≡ self.old.keeper }
        ensures longer { HasGrown (K.kept self.old.keeper) (K.kept self.new.keeper) }
        ensures durable { K.durable self.old.keeper ≤ K.durable self.new.keeper }
        ensures after { self.old.failed ≡ true → self.new ≡ self.old }
        ensures same { self.new.loaded ≡ self.old.loaded }
        ensures cause { self.new.marked ≢ self.old.marked →
            Rose (K.writing self.old.keeper) (K.writing self.new.keeper) }
        ensures other { K.reading self.new.keeper ≡ K.reading self.old.keeper }
    {
        if self.failed {
            return self.fault();
        }
        let added = add_entry(
            self.alloc,
            &mut self.keeper,
            &mut self.tables,
            self.loaded,
            made,
        );
        match added {
            Ok(()) => Ok(()),
            Err(EdgeFault::Failed) => {
                self.failed = true;
                self.marked = 1;
                Err(EdgeFault::Failed)
            }
            Err(EdgeFault::Memory) => {
                self.failed = true;
                Err(EdgeFault::Memory)
            }
        }
    }

    /// What adding a record that failed answered.
    pub fn fault(&self) -> Result<(), EdgeFault>
        ensures { result ≡ told_by self.now.failed self.now.marked }
    {
        if !self.failed {
            Ok(())
        } else if self.marked == 0 {
            Err(EdgeFault::Memory)
        } else {
            Err(EdgeFault::Failed)
        }
    }

    /// The keeper.
    pub fn into_keeper(self) -> K
        ensures same { result ≡ self.keeper }
        ensures text { IsBeginning PROFILE_NUMBER (K.kept result) }
        ensures safe { self.failed ≡ false →
            IfSome (K.kept result) (IsSafe PROFILE_NUMBER (K.durable result)) }
        ensures unmarked { self.failed ≡ false → self.marked ≡ 0 }
        ensures marks { self.marked ≤ K.writing result }
        ensures made { IfSome (K.kept result)
            (HoldsBehind M.holds PROFILE_NUMBER self.loaded) }
    {
        let JournalState {
            keeper,
            alloc: _,
            tables: _,
            loaded: _,
            failed: _,
            marked: _,
            made: _,
        } = self;
        keeper
    }
}
