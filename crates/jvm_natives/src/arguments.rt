//! Values on the top of a stack as arguments, by their number.

ghost use Rattle.std.specs.Prelude.{◌≡◌, ◌<◌, length, IfSome, IfNone};
ghost use Rattle.jvm_frames.specs.Frames.{HasWords};

use jvm_frames::{Args, Frames};

/// The uppermost values of the running frame's stack, so many; none where there are fewer.
#[tactic(auto, using(crate::proofs::Counted::none_yet, crate::proofs::Counted::one_more, crate::proofs::Counted::fewer, crate::proofs::Counted::no_frame))]
pub fn args_of(frames: &Frames, count: usize) -> Option<Args>
    ensures some { IfSome result (λ a. HasWords a.count a.words frames.now) }
    ensures count { IfSome result (λ a. a.count ≡ count) }
    ensures none { IfNone result (IfSome frames.now.frame (λ f. length f.stack < count)) }
{
    match frames.place() {
        Some(_) => {}
        None => return None,
    }
    let mut args = Args { count: 0, words: 0 };
    let mut left = count;
    while left > 0 {
        let Some(more) = frames.with_below(args) else {
            return None;
        };
        args = more.1;
        left -= 1;
    }
    Some(args)
}
