//! Whether a class is initialised, or its initializer runs (JVMS 5.5).

ghost use Rattle.std.specs.Prelude.{◌≡◌, ◌<◌, length, true};
ghost use Rattle.jvm_world.specs.View.{IsWorldOf};
ghost use Rattle.jvm_invokes.specs.Rows.{IsReady};

use class_model::ClassId;
use class_table::Program;
use jvm_world::{World, is_begun};

/// Whether a class has begun, so that nothing stands before its use. Classes of the library have
/// from the start.
#[inline(always)]
pub fn is_ready(world: &World, p: &Program, class: ClassId) -> bool
    requires world { IsWorldOf p.now world.now }
    requires class { class.0 < length p.now }
    ensures { result ≡ true → IsReady p.now world.now class.0 }
{
    let info = p.info(class);
    if info.linked().library {
        return true;
    }
    let state = world.state(p, class);
    is_begun(state)
}
