//! Why a job has no answer.

ghost use Rattle.std.specs.Prelude.{◌≡◌};
ghost use Rattle.suite_runs.specs.declared.fault.JobFault.TheVariants as fault;

use class_model::Memory as WantOfMemory;
use job_answers::JobRefusal;
use std::alloc::AllocError;

/// Why a job has no answer.
#[derive(Drop)]
pub enum JobFault {
    Refused(JobRefusal),
    /// Some new record doesn't fit the fields of a history, or there are too many names or classes.
    Unwritable,
    /// Memory has run out.
    Memory,
}

impl From<JobRefusal> for JobFault {
    ghost from_gives = { λ r f. f ≡ fault.Refused r };

    fn from(refusal: JobRefusal) -> JobFault {
        JobFault::Refused(refusal)
    }
}

impl From<WantOfMemory> for JobFault {
    ghost from_gives = { λ _ f. f ≡ fault.Memory };

    fn from(_e: WantOfMemory) -> JobFault {
        JobFault::Memory
    }
}

impl From<AllocError> for JobFault {
    ghost from_gives = { λ _ f. f ≡ fault.Memory };

    fn from(_e: AllocError) -> JobFault {
        JobFault::Memory
    }
}
