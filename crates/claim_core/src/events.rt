/// What a worker noted in its list.
#[derive(Clone, Copy)]
pub enum ClaimEntry {
    /// It drew this number. A number at or past the number of cells stands for no cell.
    Claimed(u64),
    /// It looked at this mutant, and saw this least place, or 65,535 where none was detected.
    Looked(u64, u64),
    /// It detected this mutant at this place.
    Detected(u64, u64),
}

/// What a worker does to the shared state, in one step.
#[derive(Clone, Copy)]
pub enum Event {
    /// Asks for a cell.
    Claim {
        worker: u64,
    },
    /// Asks for the least detected place of a mutant.
    Look {
        worker: u64,
        mutant: u64,
    },
    /// Tells that the test at a place detects a mutant.
    Detect {
        worker: u64,
        mutant: u64,
        place: u64,
    },
}

/// What an event answers.
#[derive(Clone, Copy)]
pub enum Reply {
    /// To a claim: the cell's number, or none once the numbers are past the cells.
    Cell(Option<u64>),
    /// To a look: the least detected place, if there is one.
    Place(Option<u64>),
    /// To a detection.
    Done,
}
