//! What a job answers, by what is known of its runs.
#![tactic(auto)]

mod laws;
mod refusal;

pub use laws::{
    answers_are_as_asked, answers_are_from_scratch, answers_are_of_all_tests, answers_are_true,
    answers_can_be_written, costs_are_as_asked, each_mutant_has_one_verdict,
    originals_have_records, refusals_cost_originals, true_records_change_nothing,
};
pub use refusal::{FailedTest, JobRefusal};
