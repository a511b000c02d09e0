//! Returns (JVMS 2.6.4, 6.5).

ghost use Rattle.std.specs.Prelude.{◌≡◌, ◌<◌, ℕ, List, Option, [], None, length, IfOk, OnOk, IfSome};
ghost use Rattle.std.specs.Option.{option_map};
ghost use Rattle.machine_rules.specs.Calls.{finishes};
ghost use Rattle.class_link.specs.Symbols.{kind_of};
ghost use Rattle.jvm_world.specs.View.{IsWorldOf, IsKept};
ghost use Rattle.jvm_unwind.specs.Turns.{ComesAt, Turns};
ghost use Rattle.program_rules.specs.declared.value.Value.{Value as ValueOf};
ghost use Rattle.jvm_calls.specs.Returns.{HasCaller, StaysOrBack, IsGiven, back, giving, returning_int, returning_long, returning_reference, returning_plain};

use crate::results::{int_result, long_result, reference_result};
use class_model::{Kind, Memory};
use class_table::Program;
use jvm_frames::Frames;
use jvm_unwind::{Turn, is_awaited};
use jvm_world::World;
use machine_rules::{InitState, Stop};
use program_rules::Value;

// The call of the script has returned. A test that was to throw has failed then.
fn finish(world: &mut World, p: &Program)
    requires { IsWorldOf p.now world.old }
    ensures finishes { ComesAt p.now world.old world.new [] None finishes }
    ensures kept { IsKept p.now world.old world.new }
{
    if is_awaited(world, p) {
        world.end(p, Stop::TestReturned);
    }
    world.finish_call(p);
}

// The frame below goes on behind its call, with a result if there is one. Below the last frame the
// call of the script has returned.
#[inline(always)]
fn go_back(frames: &mut Frames, world: &mut World, p: &Program, v: Option<Value>) -> Turn
    requires world { IsWorldOf p.now world.old }
    requires caller { HasCaller p.now frames.old }
    ensures row { Turns p.now (back p.now v) result frames.old frames.new world.old world.new }
    ensures frames { StaysOrBack frames.old frames.new }
    ensures kept { IsKept p.now world.old world.new }
{
    if frames.below() == 0 {
        frames.leave();
        finish(world, p);
        return Turn::Goes;
    }
    match v {
        Some(v) => {
            if !frames.fits_below(v) {
                return Turn::NoRow;
            }
            frames.leave();
            frames.put(0, v);
            Turn::Goes
        }
        None => {
            frames.leave();
            frames.advance(0);
            Turn::Goes
        }
    }
}

// The frame that runs is left with a result, if the row gives one.
#[inline(always)]
fn give_back(frames: &mut Frames, world: &mut World, p: &Program, v: Option<Value>) -> Turn
    requires world { IsWorldOf p.now world.old }
    requires caller { HasCaller p.now frames.old }
    ensures row { (r : List ValueOf → Option ValueOf) → IsGiven r v frames.old →
        Turns p.now (giving p.now r) result frames.old frames.new world.old world.new }
    ensures frames { StaysOrBack frames.old frames.new }
    ensures kept { IsKept p.now world.old world.new }
{
    match v {
        Some(v) => {
            let back = go_back(frames, world, p, Some(v));
            back
        }
        None => Turn::NoRow,
    }
}

/// `ireturn`: the method's result has to be an int or of a small kind, to which the value is
/// narrowed.
#[inline(always)]
pub fn return_int(frames: &mut Frames, world: &mut World, p: &Program, kind: &Option<Kind>) -> Turn
    requires world { IsWorldOf p.now world.old }
    requires caller { HasCaller p.now frames.old }
    ensures row { Turns p.now (returning_int p.now (option_map kind_of kind.now)) result
        frames.old frames.new world.old world.new }
    ensures frames { StaysOrBack frames.old frames.new }
    ensures kept { IsKept p.now world.old world.new }
{
    let v = int_result(frames, kind);
    let back = give_back(frames, world, p, v);
    back
}

/// `lreturn`: the method's result has to be a long.
#[inline(always)]
pub fn return_long(frames: &mut Frames, world: &mut World, p: &Program, kind: &Option<Kind>) -> Turn
    requires world { IsWorldOf p.now world.old }
    requires caller { HasCaller p.now frames.old }
    ensures row { Turns p.now (returning_long p.now (option_map kind_of kind.now)) result
        frames.old frames.new world.old world.new }
    ensures frames { StaysOrBack frames.old frames.new }
    ensures kept { IsKept p.now world.old world.new }
{
    let v = long_result(frames, kind);
    let back = give_back(frames, world, p, v);
    back
}

/// `areturn`: the method's result has to be a reference.
#[inline(always)]
pub fn return_reference(
    frames: &mut Frames,
    world: &mut World,
    p: &Program,
    kind: &Option<Kind>,
) -> Turn
    requires world { IsWorldOf p.now world.old }
    requires caller { HasCaller p.now frames.old }
    ensures row { Turns p.now (returning_reference p.now (option_map kind_of kind.now)) result
        frames.old frames.new world.old world.new }
    ensures frames { StaysOrBack frames.old frames.new }
    ensures kept { IsKept p.now world.old world.new }
{
    let v = reference_result(frames, kind);
    let back = give_back(frames, world, p, v);
    back
}

// `return` of a method without a result.
fn return_nothing(
    frames: &mut Frames,
    world: &mut World,
    p: &Program,
    initializes: bool,
) -> Result<Turn, Memory>
    requires world { IsWorldOf p.now world.old }
    requires caller { HasCaller p.now frames.old }
    requires class { IfSome frames.old.frame (λ f. f.class < length p.now) }
    ensures row { IfOk result (λ t. (room : ℕ) →
        Turns p.now (returning_plain p.now None room initializes) t
        frames.old frames.new world.old world.new) }
    ensures frames { OnOk result (StaysOrBack frames.old frames.new) }
    ensures kept { OnOk result (IsKept p.now world.old world.new) }
{
    if !initializes {
        let back = go_back(frames, world, p, None);
        return Ok(back);
    }
    let Some(place) = frames.place() else {
        return Ok(Turn::NoRow);
    };
    world.mark(p, place.class, InitState::Done)?;
    frames.leave();
    Ok(Turn::Goes)
}

/// `return`: the method may have no result. Behind the initializer of a class its class is done,
/// and the instruction of the frame below is executed again.
pub fn return_plain(
    frames: &mut Frames,
    world: &mut World,
    p: &Program,
    kind: &Option<Kind>,
    initializes: bool,
) -> Result<Turn, Memory>
    requires world { IsWorldOf p.now world.old }
    requires caller { HasCaller p.now frames.old }
    requires class { IfSome frames.old.frame (λ f. f.class < length p.now) }
    ensures row { IfOk result (λ t. (room : ℕ) →
        Turns p.now (returning_plain p.now (option_map kind_of kind.now) room initializes)
        t frames.old frames.new world.old world.new) }
    ensures frames { OnOk result (StaysOrBack frames.old frames.new) }
    ensures kept { OnOk result (IsKept p.now world.old world.new) }
{
    match kind {
        Some(_) => Ok(Turn::NoRow),
        None => {
            let turn = return_nothing(frames, world, p, initializes)?;
            Ok(turn)
        }
    }
}
