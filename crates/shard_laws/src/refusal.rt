//! Why a merge is refused.

use job_answers::JobRefusal;
use shard_rules::Lack;

/// Why a merge of whole sets of shards is refused.
#[derive(Drop)]
pub enum MergeRefusal {
    /// The first run that is lacking.
    Lacks(Lack),
    /// As the job of one call is.
    Refused(JobRefusal),
}
