//! What two tests say of the six mutants, worked out by hand.

ghost use Rattle.std.specs.Prelude.{◌≡◌};
ghost use Rattle.worker_checks.specs.Rows.{below_zero};

use crate::rows::{Row, RowHands, RowRecord};

const PASSED: RowRecord = RowRecord {
    state: None,
    steps: 15,
};

const PASSED_LATER: RowRecord = RowRecord {
    state: None,
    steps: 17,
};

const KILLED: RowRecord = RowRecord {
    state: Some(1),
    steps: 15,
};

const KILLED_LATER: RowRecord = RowRecord {
    state: Some(1),
    steps: 17,
};

const BELOW_ZERO: [Row; 6] = [
    Row {
        first: PASSED,
        second: KILLED,
    },
    Row {
        first: KILLED,
        second: KILLED,
    },
    Row {
        first: KILLED_LATER,
        second: PASSED,
    },
    Row {
        first: PASSED_LATER,
        second: PASSED,
    },
    Row {
        first: PASSED,
        second: PASSED_LATER,
    },
    Row {
        first: PASSED,
        second: KILLED_LATER,
    },
];

/// Hands for these runs.
pub fn hands_of(found: bool, failing: Option<u64>) -> RowHands
    ensures rows { result.rows ≡ below_zero }
    ensures found { result.found ≡ found }
{
    RowHands {
        rows: BELOW_ZERO,
        found,
        failing,
    }
}
