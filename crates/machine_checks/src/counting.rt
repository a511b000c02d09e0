// A method that counts down, and what it leaves to others.

use class_model::{ClassId, Memory};
use jvm_frames::Frames;
use jvm_state::Op;
use std::alloc::Global;

// Pushes 3 and counts it down to 0: two steps before the loop, seven for each time round, and two
// to leave it. The return isn't of the frame alone.
fn ops(alloc: Global) -> Result<Vec<Op>, Memory> {
    Ok(vec![in alloc;
        Op::IntConstant(3),
        Op::IntStore(0),
        Op::IntLoad(0),
        Op::IfAtMost(9),
        Op::IntLoad(0),
        Op::IntConstant(1),
        Op::IntMinus,
        Op::IntStore(0),
        Op::Goto(2),
        Op::PlainReturn,
    ]?)
}

#[test]
fn a_frame_counts_down(rt: HostRuntime) -> Result<(), Memory> {
    let alloc = rt.alloc();
    let ops = ops(alloc)?;
    let mut frames = Frames::new(alloc);
    frames.begin(None, ClassId(0), 0, 1, 2)?;
    let taken = frames.stay(&ops, &[], &[true; 10], 1000);
    assert_eq!(rt; taken, 25);
    let more = frames.stay(&ops, &[], &[true; 10], 1000);
    assert_eq!(rt; more, 0);
    Ok(())
}
