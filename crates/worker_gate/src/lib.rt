//! Workers that share the cells of a claim table.
#![tactic(auto)]

mod cell;
mod drawing;
mod ends;
mod laws;
mod outer;
mod settled;
mod sharing;
mod working;

pub use drawing::rounds;
pub use ends::{CellEnd, DrawnCell, Job, JobCells, Plan, WorkEnd};
pub use laws::{jobs_leave, left_may_settle, settled_is_exact};
pub use outer::{Gate, Hands, NoJournal, OpenGate, Recorder};
pub use settled::settle;
pub use sharing::share_cells;
pub use working::{run_workers, work_in};
