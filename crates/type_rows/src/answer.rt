//! What a row answers.

ghost use Rattle.std.specs.Prelude.{◌≡◌, IfOk};
ghost use Rattle.type_rows.specs.Answers.{Gives};

use vframes::Frame;

/// The next instruction begins with the frame that is left; or what is executed next is a target, a
/// handler or the caller; or the rule of this number refuses.
#[derive(Clone, Copy)]
pub enum Answer {
    Falls,
    Stops,
    Fails(u8),
}

/// The next instruction begins with the frame, if its stack takes no more words than there are.
pub fn give(f: &Frame, room: u16) -> Answer
    ensures { Gives room f.now f.now.stack result f.now }
{
    if f.stack.fits(room) {
        Answer::Falls
    } else {
        Answer::Fails(8)
    }
}
