//! The words and the monitors of a world.

ghost use Rattle.std.specs.Prelude.{◌≡◌, ◌+◌, false};
ghost use Rattle.jvm_world.specs.View.{Exits, IsKept, IsWorldOf, TellsRoom};

use class_table::Program;
use jvm_world::World;

/// `World::has_room` of `jvm_world`.
pub fn has_room(world: &World, p: &Program, header: u32, units: usize) -> bool
    ensures { TellsRoom p.now world.now (header + units) result }
{
    let words = header;
    world.has_room(p, words, units)
}

/// `World::exit_monitor` of `jvm_world`.
pub fn exit_monitor(world: &mut World, p: &Program, object: u32) -> bool
    requires world { IsWorldOf p.now world.old }
    ensures exits { Exits p.now object world.old world.new result }
    ensures same { result ≡ false → world.new ≡ world.old }
    ensures kept { IsKept p.now world.old world.new }
{
    if world.exit_monitor(p, object) {
        return true;
    }
    false
}
