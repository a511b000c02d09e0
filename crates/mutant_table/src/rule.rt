// The rule of the table, and what its steps tell. No value of a view is ever made: it stands in
// contracts alone.
use atomic_table::{Join, Play, Split, TableRule};
use claim_core::ClaimEntry;
use std::collections::LinkedList;

// What a worker's seat knows: its number, what it did, and the table's sizes. The seat of worker 0
// knows how many seats were made, and the lists of those that it took in. A spent seat knows
// nothing.
pub struct View {
    pub live: bool,
    pub worker: u64,
    pub entries: LinkedList<ClaimEntry>,
    pub mutants: u64,
    pub cells: u64,
    pub workers: u64,
    pub made: u64,
    pub ended: LinkedList<(u64, LinkedList<ClaimEntry>)>,
}

#[derive(Drop)]
pub struct Sizes {
    pub mutants: u64,
    pub cells: u64,
    pub workers: u64,
}

pub struct ClaimRule;

impl TableRule<u8, View, Sizes> for ClaimRule {
    ghost use Rattle.mutant_table.specs.Rule.{IsTableOfClaims, first_view};

    ghost holds = { IsTableOfClaims };

    ghost first = { first_view };
}

pub struct Claiming;

impl Play<u8, View> for Claiming {
    ghost use Rattle.mutant_table.specs.Rule.{TellsClaim};

    ghost then = { TellsClaim };
}

pub struct Looking;

impl Play<u8, View> for Looking {
    ghost use Rattle.mutant_table.specs.Rule.{TellsLook};

    ghost then = { TellsLook };
}

pub struct Detecting;

impl Play<u8, View> for Detecting {
    ghost use Rattle.mutant_table.specs.Rule.{TellsDetection};

    ghost then = { TellsDetection };
}

pub struct Seating;

impl Split<View> for Seating {
    ghost use Rattle.mutant_table.specs.Rule.{made_one, seated};

    ghost left = { made_one };

    ghost right = { seated };
}

impl Join<View> for Seating {
    ghost use Rattle.mutant_table.specs.Rule.{taken_in, spent_view};

    ghost both = { taken_in };

    ghost spent = { spent_view };
}
