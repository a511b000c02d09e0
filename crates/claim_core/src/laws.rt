ghost use Rattle.std.specs.Prelude.{ℕ};
ghost use Rattle.claim_core.specs.Agreement.{KeepsAgreement, RunsAgree};
ghost use Rattle.claim_core.specs.Claims.{Claims};
ghost use Rattle.claim_core.specs.Ending.{RunsEndAtLeast, WholeRunsEndAtLeast};
ghost use Rattle.claim_core.specs.declared.events.Event.{Event as ClaimEvent};

/// Law: every event keeps the agreement, from any state that has it.
pub fn events_keep_agreement()
    ensures { (event : ClaimEvent) (claims : Claims) → KeepsAgreement event claims }
{}

/// Law: after any events from the start the claims agree.
pub fn runs_agree()
    ensures { (mutants cells workers : ℕ) → RunsAgree mutants cells workers }
{}

/// Law: where claims agree and all cells of a table are done, each least place is the least of the
/// mutant's detecting cells.
pub fn whole_run_is_least()
    ensures { (claims : Claims) → WholeRunsEndAtLeast claims }
{}

/// Law: the same after any events from the start.
pub fn events_end_at_least()
    ensures { (mutants cells workers : ℕ) → RunsEndAtLeast mutants cells workers }
{}
