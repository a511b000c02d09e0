//! The rows of static fields, once the field was found and its class is initialised (JVMS 6.5).

ghost use Rattle.std.specs.Prelude.{◌+◌, ◌<◌, ◌^◌, length, IfOk, IfSome, OnOk};
ghost use Rattle.program_rules.specs.Programs.{Family};
ghost use Rattle.program_rules.specs.Resolution.{FieldAt};
ghost use Rattle.class_link.specs.Symbols.{kind_of};
ghost use Rattle.jvm_world.specs.View.{IsWorldOf, IsKept};
ghost use Rattle.jvm_rows.specs.Effects.{Runs};
ghost use Rattle.jvm_rows.specs.Statics.{IsStaticAt, reading_row, writing_row};

use crate::made::put_within;
use crate::{Effect, narrow_to, of_kind_at};
use class_model::{ClassId, Kind, Memory};
use class_table::Program;
use jvm_frames::Frames;
use jvm_world::World;

/// `getstatic` of the field of a class at a place.
pub fn get_static(
    frames: &mut Frames,
    world: &World,
    p: &Program,
    class: ClassId,
    place: u32,
    kind: &Kind,
) -> Effect
    requires world { IsWorldOf p.now world.now }
    requires class { class.0 < length p.now }
    requires next { IfSome frames.old.frame (λ f. f.at + 1 < 2 ^ 64) }
    ensures { (x : FieldAt) (c : Family) → IsStaticAt p.now class.0 place (kind_of kind.now) x →
        Runs p.now (reading_row x c) result frames.old frames.new world.now world.now }
{
    let value = world.static_value(p, class, place, kind);
    put_within(frames, 0, value)
}

/// `putstatic` of the field of a class at a place.
pub fn put_static(
    frames: &mut Frames,
    world: &mut World,
    p: &Program,
    class: ClassId,
    place: u32,
    kind: &Kind,
) -> Result<Effect, Memory>
    requires world { IsWorldOf p.now world.old }
    requires class { class.0 < length p.now }
    requires next { IfSome frames.old.frame (λ f. f.at + 1 < 2 ^ 64) }
    ensures row { IfOk result (λ e. (x : FieldAt) (c : Family) →
        IsStaticAt p.now class.0 place (kind_of kind.now) x →
        Runs p.now (writing_row x c) e frames.old frames.new world.old world.new) }
    ensures kept { OnOk result (IsKept p.now world.old world.new) }
{
    let Some(value) = of_kind_at(frames, 0, kind) else {
        return Ok(Effect::NoRow);
    };
    let narrowed = narrow_to(kind, value);
    world.set_static(p, class, place, narrowed)?;
    frames.advance(1);
    Ok(Effect::Goes)
}
