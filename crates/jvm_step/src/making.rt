//! The instance of a test is made, and its `<init>` is called.

ghost use Rattle.std.specs.Prelude.{◌≡◌, ◌<◌, None, [], length, IfOk, OnOk};
ghost use Rattle.program_rules.specs.Programs.{family};
ghost use Rattle.class_table.specs.Table.{look, name_at};
ghost use Rattle.jvm_lines.specs.Below.{AreWhole, StaysOrBegins};
ghost use Rattle.jvm_lines.specs.Below.{IsSite};
ghost use Rattle.jvm_world.specs.View.{IsWorldOf, IsKept};
ghost use Rattle.jvm_step.specs.Steps.{StepsAt, makes};

use crate::entering::enter;
use class_model::{ClassId, Memory, Seq};
use class_table::Program;
use jvm_frames::Frames;
use jvm_layout::{Layout, layout_of};
use jvm_lines::Turn;
use jvm_link::Site;
use jvm_values::{ObjKind, Object};
use jvm_world::World;
use std::alloc::Global;

// A new instance of a class with this layout.
fn instance_of(alloc: Global, class: ClassId, layout: Layout) -> Object
    ensures { result ≡ record {
      kind = ObjKind.Plain class;
      values = layout.values;
      text = [];
      items = [];
    } }
{
    Object {
        kind: ObjKind::Plain(class),
        values: layout.values,
        text: Seq::new(alloc),
        items: Seq::new(alloc),
    }
}

/// A new instance of a class that is ready is the test's instance, and this method of it is called.
/// Where the heap would be passed the run is over.
#[tactic(auto, using(crate::proofs::Readied::made_used, crate::proofs::Readied::made_full, crate::proofs::Entered::stays))]
pub fn make(
    frames: &mut Frames,
    world: &mut World,
    alloc: Global,
    p: &Program,
    site: Site,
) -> Result<Turn, Memory>
    requires world { IsWorldOf p.now world.old }
    requires none { frames.old.frame ≡ None }
    requires whole { AreWhole frames.old }
    requires site { IsSite p.now site }
    ensures row { IfOk result (λ t. StepsAt p.now site
        (λ m q v. makes m q v (family (look p.now) (name_at p.now site.class.0))) t
        frames.new world.old world.new) }
    ensures frames { OnOk result (StaysOrBegins p.now frames.old frames.new) }
    ensures kept { OnOk result (IsKept p.now world.old world.new) }
{
    let layout = layout_of(alloc, p, site.class)?;
    let more = layout.more;
    let object = instance_of(alloc, site.class, layout);
    let made = world.allocate(p, object, more)?;
    match made {
        Some(x) => {
            world.set_instance(p, x);
            let turn = enter(frames, world, alloc, p, site, Some(x))?;
            Ok(turn)
        }
        None => Ok(Turn::Goes),
    }
}
