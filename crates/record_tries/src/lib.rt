//! Records of small programs: the premises of the laws of reuse are met, and what matches is by
//! computing.
//!
//! The class files are of a byte each, so that all is a matter of a few names. The classes and runs
//! are worked examples of the machine.
#![tactic(auto)]

ghost use Rattle.std.specs.Prelude.{◌≡◌, true, false, [], ◌∷◌, Some, codes};
ghost use Rattle.machine_rules.specs.Worked.{roomy};
ghost use Rattle.machine_rules.specs.WorkedRows.{tight};
ghost use Rattle.record_rules.specs.Records.{record_of};
ghost use Rattle.record_rules.specs.Matching.{matches, first_match};
ghost use Rattle.record_rules.specs.Truth.{held_in, IsTrueRecord};
ghost use Rattle.record_rules.specs.Histories.{known, new_records, reused};
ghost use Rattle.record_rules.specs.Jobs.{with_limit, end_of, NeedCost, Cost};
ghost use Rattle.reuse_laws.specs.Asking.{IsProfile, IsAsked, AreSpelled};
ghost use Rattle.record_tries.specs.Tries as tries;
ghost use Rattle.record_tries.specs.Tries.{profile, neg_on, t_on, passed, failed, timed_out};

/// What the laws ask of a profile and of a run is met.
pub fn profiles_are_met()
    ensures profile { IsProfile profile }
    ensures original { IsAsked profile (neg_on tries.original 1000000000) }
    ensures further { IsAsked profile (neg_on tries.further 15) }
    ensures spelled { AreSpelled profile (held_in tries.original) }
{}

/// Records of a run that passes, of one that fails on an edited program, of one that is timed out,
/// of one that passes the heap and of one that catches an absent class are true.
pub fn records_are_true()
    ensures passed { IsTrueRecord profile passed }
    ensures failed { IsTrueRecord profile failed }
    ensures timed_out { IsTrueRecord profile timed_out }
    ensures full { IsTrueRecord profile tries.full }
    ensures absent { IsTrueRecord profile tries.absent }
{}

/// They are the records of runs, each of its own program.
pub fn records_are_of_runs()
    ensures passed { record_of (neg_on tries.original 1000000000) ≡ Some passed }
    ensures failed { record_of (neg_on tries.edited 1000000000) ≡ Some failed }
    ensures timed_out { record_of (neg_on tries.original 14) ≡ Some timed_out }
    ensures full { record_of (tries.full_within 1000000000) ≡ Some tries.full }
    ensures absent { record_of (t_on tries.catching) ≡ Some tries.absent }
{}

/// A record matches where a further class is there, and not where bytes are others, though they
/// spell the same class; nor where a class is there that was absent.
pub fn bytes_decide()
    ensures further { matches passed (neg_on tries.further 1000000000) ≡ true }
    ensures rewritten { matches passed (neg_on tries.rewritten 1000000000) ≡ false }
    ensures edited { matches passed (neg_on tries.edited 1000000000) ≡ false }
    ensures failed { matches failed (neg_on tries.edited 1000000000) ≡ true }
    ensures original { matches failed (neg_on tries.original 1000000000) ≡ false }
    ensures absent { matches tries.absent (t_on tries.catching) ≡ true }
    ensures there { matches tries.absent (t_on tries.completed) ≡ false }
{}

/// One that ended matches under each limit that its steps keep, and one that is timed out under its
/// own; the test, the heap and the depth are its own.
pub fn limits_decide()
    ensures kept { matches passed (neg_on tries.original 15) ≡ true }
    ensures short { matches passed (neg_on tries.original 14) ≡ false }
    ensures own { matches timed_out (neg_on tries.original 14) ≡ true }
    ensures longer { matches timed_out (neg_on tries.original 15) ≡ false }
    ensures full { matches tries.full (tries.full_within 8) ≡ true }
    ensures fewer { matches tries.full (tries.full_within 7) ≡ false }
    ensures test { matches passed (tries.asked tries.original (codes "zero") roomy 15) ≡ false }
    ensures heap { matches passed (tries.neg_under tight) ≡ false }
    ensures depth { matches passed (tries.neg_under tries.deep) ≡ false }
{}

/// The first record that matches is taken. It stands for a run on a larger program under another
/// limit, and a job has of that run what the run gives.
pub fn reuse_laws_are_of_use()
    ensures first { first_match tries.several (neg_on tries.further 15) ≡ Some tries.shorter }
    ensures again { record_of (neg_on tries.further 15) ≡ Some (with_limit 15 passed) }
    ensures written { IsTrueRecord profile (with_limit 15 passed) }
    ensures same { end_of tries.both (neg_on tries.further 15)
        ≡ record_of (neg_on tries.further 15) }
{}

/// Of a run the first record that matches is known. Two runs with one record make one new record,
/// which is reused where an old one matches them. A mutant that two tests detect needs the run of
/// the first alone.
pub fn job_laws_are_of_use()
    ensures known { known tries.both (neg_on tries.further 15) ≡ Some passed }
    ensures records { new_records tries.needed
        ≡ with_limit 15 passed ∷ with_limit 15 failed ∷ [] }
    ensures reused { reused (passed ∷ []) tries.needed ≡ 1 }
    ensures anew { NeedCost [] tries.job ≡ 45 }
    ensures needed { NeedCost (passed ∷ []) tries.job ≡ 30 }
    ensures whole { Cost (passed ∷ []) tries.job ≡ 45 }
{}
