//! Types and frames of the verifier (JVMS 4.10.1.2, 4.7.4): when one type may stand where another
//! is stated, and the frames that a method states, in full.
#![tactic(auto)]

mod assign;
mod base;
mod by_name;
mod frame;
mod fresh;
mod full;
mod handlers;
mod named;
mod slot_type;
mod stack;
mod stated;
mod stated_frames;
mod sweep;

pub use assign::{is_assignable, is_below, is_frame_assignable, is_interface, is_name_assignable};
pub use base::Base;
pub use by_name::assignable;
pub use frame::Frame;
pub use fresh::Fresh;
pub use full::frame_in_full;
pub use handlers::Handler;
pub use named::{Named, is_same_name, name_parts, named_at};
pub use slot_type::SlotType;
pub use stack::{Stack, Two, words_of};
pub use stated::{
    Local, Locals, StatedFrame, chop_locals, is_assignable_to_stated, no_locals, push_local,
    push_locals,
};
pub use stated_frames::StatedFrames;
pub use sweep::Sweep;
