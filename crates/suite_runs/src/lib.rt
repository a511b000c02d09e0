//! A whole job of an accepted suite: with old records and workers.
#![tactic(auto)]

mod bounds;
mod covering;
mod failed;
mod fault;
mod finished;
mod job;
mod prepared;
mod reached;
mod records;
mod run;
mod verdicts;

pub use fault::JobFault;
pub use job::{JobDone, SuiteJob};
pub use job_answers::{
    FailedTest, JobRefusal, answers_are_from_scratch, true_records_change_nothing,
};
pub use run::run_job;
pub use suite_workers::{OldRecords, ProgramEnd, ProgramFault, program_of};
