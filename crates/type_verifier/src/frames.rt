//! The frames that a code states, by instruction (JVMS 4.7.4, 4.10.1.6).

ghost use Rattle.std.specs.Prelude.{◌≤◌, reverse, IfOk};
ghost use Rattle.vframes.specs.View.{words_of};
ghost use Rattle.vframes.specs.Stated.{AreLocals};
ghost use Rattle.type_verifier.specs.Standing.{AreFirst};
ghost use Rattle.type_verifier.specs.Expansions.{ExpandsTo};

use crate::Difference;
use crate::method::MethodCode;
use crate::steps::next_frame;
use crate::table::put;
use class_model::Memory;
use std::alloc::Global;
use vframes::{Local, Locals, SlotType, StatedFrames, no_locals, push_locals};

/// The frames that a code states, by instruction; or the instruction of the first that can't be
/// expanded.
#[derive(Drop)]
pub enum Expansion {
    Frames(StatedFrames),
    BadFrame(u32),
}

// The locals of these types, which fit so many words.
fn first_locals(
    store: &mut Vec<Local>,
    max_locals: u16,
    types: &[SlotType],
) -> Result<Locals, Memory>
    requires { words_of types.now ≤ max_locals }
    ensures { IfOk result (λ l. AreLocals store.new.items l (reverse types.now)) }
{
    let none = no_locals();
    let locals = push_locals(store, none, types)?;
    Ok(locals)
}

/// The frames that a code states, in the order of the class file, behind the types of its receiver
/// and its arguments. Of two frames for one instruction the first counts. A frame can't be expanded
/// (rule 3) if it stands for no instruction, takes away more locals than there are, passes the
/// locals or the stack of its method, or has an object that isn't initialised and can't stand
/// there.
pub fn expand(
    alloc: Global,
    method: &MethodCode,
    first: &[SlotType],
    differences: &[Difference],
) -> Result<Expansion, Memory>
    requires { AreFirst method.now first.now }
    ensures { IfOk result (λ x. ExpandsTo method.now first.now differences.now x) }
{
    let max = method.code.max_locals;
    let mut store = Vec::new(alloc);
    let mut frames = Vec::new(alloc);
    let mut before = first_locals(&mut store, max, first)?;
    for difference in differences {
        let next = next_frame(alloc, method, &mut store, before, difference)?;
        match next {
            Some(frame) => {
                before = frame.locals;
                put(&mut frames, difference.at, frame)?;
            }
            None => return Ok(Expansion::BadFrame(difference.at)),
        }
    }
    let stated = StatedFrames::new(frames, store, max);
    Ok(Expansion::Frames(stated))
}
