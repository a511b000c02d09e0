//! What a row that keeps the frame comes to, as a turn.

ghost use Rattle.std.specs.Prelude.{◌≡◌, List};
ghost use Rattle.class_link.specs.Info.{Info};
ghost use Rattle.jvm_frames.specs.Frames.{NumberedFrames};
ghost use Rattle.jvm_rows.specs.Effects.{RowOf};
ghost use Rattle.jvm_members.specs.Whole.{RunsWhole};
ghost use Rattle.jvm_world.specs.declared.world.World as code;
ghost use Rattle.jvm_members.specs.Turned.{TurnsWhole, turn_of};

use jvm_rows::Effect;
use jvm_unwind::Turn;

/// What a row that keeps the frame comes to, as a turn.
#[tactic(auto, using(crate::proofs::Turned::whole_turn))]
pub fn turn_of(effect: Effect) -> Turn
    ensures turn { result ≡ turn_of effect }
    ensures row { (p : List Info) (row : RowOf) (old new : NumberedFrames) (w u : code.World) →
        RunsWhole p row effect old new w u → TurnsWhole p row result old new w u }
{
    match effect {
        Effect::NoRow => Turn::NoRow,
        Effect::Goes => Turn::Goes,
        Effect::Throws(object) => Turn::Throws(object),
    }
}
