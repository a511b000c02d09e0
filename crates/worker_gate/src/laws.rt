//! What follows of what workers leave, and of settled cells.

ghost use Rattle.worker_gate.specs.Exact.{SettledIsExact};
ghost use Rattle.worker_gate.specs.Leaving.{JobsLeave, LeftMaySettle};

/// Law: what `run_workers` makes of a job for each seat of a table is what all its workers left.
pub fn jobs_leave<C, M, F, R, S>()
    ensures { JobsLeave C M F R S }
{}

/// Law: then `settle` may be called: the seats are those of the table, and the parts together are at
/// most what all runs cost, for each worker.
pub fn left_may_settle<C, M, F, R, S>()
    ensures { LeftMaySettle C M F R S }
{}

/// Law: what all workers left is what running every covering test on every mutant says; and it cost
/// what is needed at least, what all runs cost at most, and with one worker exactly what is needed.
pub fn settled_is_exact<M, F, R, S>()
    ensures { SettledIsExact M F R S }
{}
