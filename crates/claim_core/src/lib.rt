//! Which cell of the run table a worker runs, and which it may skip, as a machine over events that
//! knows no thread.
#![tactic(auto)]

mod events;
mod laws;
mod state;

pub use events::{ClaimEntry, Event, Reply};
pub use laws::{events_end_at_least, events_keep_agreement, runs_agree, whole_run_is_least};
pub use state::ClaimState;
