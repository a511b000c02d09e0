//! The instructions that call a method on an object (JVMS 6.5): what stands below the arguments, what
//! it is of and selects, and the call.
#![tactic(auto)]

mod interfaces;
mod invoking;
mod lookups;
mod owned;
mod receivers;
mod selected;
mod special;
mod targets;
mod virtuals;

pub use invoking::{Invocation, invoke_on};
pub use lookups::Lookups;
pub use owned::Owned;
pub use targets::{Taken, Target, take_target, target_at};
