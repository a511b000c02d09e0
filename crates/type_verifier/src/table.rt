//! A table of frames by instruction.

ghost use Rattle.std.specs.Prelude.{◌≡◌, ◌<◌, false, length, is_some, slice_get, slice_set, OnOk};
ghost use Rattle.vframes.specs.StatedFrames.{filled};
ghost use Rattle.type_verifier.specs.Expansions.{IsLonger, IsPut, StayKept};

use class_model::Memory;
use vframes::StatedFrame;

// Whether a frame is stated for an instruction.
fn is_stated(frames: &[Option<StatedFrame>], at: u32) -> bool
    ensures { result ≡ is_some (filled (slice_get frames.now at)) }
{
    match frames.get(at as usize) {
        Some(Some(_)) => true,
        Some(None) => false,
        None => false,
    }
}

// Makes a table long enough for an instruction.
fn lengthen(frames: &mut Vec<Option<StatedFrame>>, at: u32) -> Result<(), Memory>
    ensures longer { OnOk result (IsLonger frames.old.items frames.new.items) }
    ensures enough { OnOk result (at < length frames.new.items) }
{
    while frames.len() <= at as usize {
        frames.push(None)?;
    }
    Ok(())
}

// Sets an item.
fn set<T: Drop>(items: &mut Vec<T>, at: usize, item: T)
    requires { at < length items.old.items }
    ensures { items.new.items ≡ slice_set items.old.items at item }
{
    items[at] = item;
}

// States a frame for an instruction for which none is stated.
fn put_first(
    frames: &mut Vec<Option<StatedFrame>>,
    at: u32,
    frame: StatedFrame,
) -> Result<(), Memory>
    requires { is_some (filled (slice_get frames.old.items at)) ≡ false }
    ensures put { OnOk result (IsPut frames.old.items at frame frames.new.items) }
    ensures kept { OnOk result (StayKept frames.old.items frame frames.new.items) }
{
    lengthen(frames, at)?;
    set(frames, at as usize, Some(frame));
    Ok(())
}

/// States a frame for an instruction, unless one is stated for it.
pub fn put(frames: &mut Vec<Option<StatedFrame>>, at: u32, frame: StatedFrame) -> Result<(), Memory>
    ensures put { OnOk result (IsPut frames.old.items at frame frames.new.items) }
    ensures kept { OnOk result (StayKept frames.old.items frame frames.new.items) }
{
    if is_stated(frames.as_slice(), at) {
        Ok(())
    } else {
        put_first(frames, at, frame)?;
        Ok(())
    }
}
