//! What a worker is handed from outside: hands that run cells, a recorder, a gate.

ghost use Rattle.std.specs.Prelude.{◌≡◌, ◌<◌, ◌^◌, IfOk, OnOk};
ghost use Rattle.worker_gate.specs.Hands.{Reading, Runs, detects_found, detects_made, IsCellOf, Finds, Makes, Counts, CountsAtMost};

use class_model::Memory;
use mt_edge::MeterPart;
pub use mt_edge::{Gate, NoJournal, OpenGate, Recorder};

/// What runs cells for one worker: its own copy of the program, in which the class of the mutant
/// that it was asked of last stands edited, and all that is kept from run to run. Cells of one
/// mutant that follow one another ask for one class alone.
pub trait Hands {
    /// The record of a run that was made here.
    type Made: Drop;

    /// A record that old results have.
    type Found: Drop;

    /// What both stand for: the record of a run. No call makes one.
    type Record;

    /// What a record says of a mutant that its run detects.
    type State;

    // Which records they are, what these say, and how many steps their runs took.
    ghost reading: { Reading Self.Made Self.Found Self.Record Self.State };

    // The runs of the job, by mutant. No call changes them.
    ghost job: { Self → Runs Self.Record };

    /// Whether the run of a made record detects its mutant.
    fn made_detects(made: &Self::Made) -> bool
        ensures { result ≡ detects_made reading made.now };

    /// Whether the run of a found record detects its mutant.
    fn found_detects(found: &Self::Found) -> bool
        ensures { result ≡ detects_found reading found.now };

    /// The record that old results have of a cell's run.
    fn find(&mut self, mutant: u64, test: u64) -> Result<Option<Self::Found>, Memory>
        requires { IsCellOf (job self.old) mutant test }
        ensures job { job self.new ≡ job self.old }
        ensures found { IfOk result (Finds reading (job self.old) mutant test) };

    /// Runs a cell. Its steps are counted in the part.
    fn run(&mut self, mutant: u64, test: u64, part: &mut MeterPart) -> Result<Self::Made, Memory>
        requires cell { IsCellOf (job self.old) mutant test }
        requires room { part.old < 2 ^ 63 }
        ensures job { job self.new ≡ job self.old }
        ensures made { IfOk result (Makes reading (job self.old) mutant test) }
        ensures steps { OnOk result (Counts reading (job self.old) mutant test part.old part.new) }
        ensures most { CountsAtMost reading (job self.old) mutant test part.old part.new };
}
