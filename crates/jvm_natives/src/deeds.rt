//! What a native method wants done.

ghost use Rattle.std.specs.Prelude.{◌≡◌, IfOk};
ghost use Rattle.library_rules.specs.Numbered.{meaning_of};
ghost use Rattle.lib_core.specs.Answers.{AnswersAmong};
ghost use Rattle.lib_core.specs.Known.{IsKnown};
ghost use Rattle.jvm_natives.specs.Natives.{AreNatives, Wants};

use crate::natives::Natives;
use class_model::Memory;
use class_table::Program;
use jvm_values::Object;
use jvm_world::World;
use lib_core::Deed;
use lib_junit::junit_deed;
use lib_lang::lang_deed;
use lib_util::util_deed;
use library_rules::Native;
use program_rules::Value;
use std::alloc::Global;

// Among these objects, by the package of its class.
#[tactic(auto, using(crate::proofs::Wanted::asserted))]
fn deed_among(
    alloc: Global,
    natives: &Natives,
    native: Native,
    objects: &[Object],
    args: &[Value],
) -> Result<Deed, Memory>
    ensures { IfOk result (λ d. IsKnown natives.now.names natives.now.known →
        AnswersAmong natives.now.names (meaning_of native) objects.now args.now d) }
{
    match native {
        Native::Lang(native) => {
            let names = natives.names.as_slice();
            let deed = lang_deed(alloc, names, &natives.known, native, objects, args)?;
            Ok(deed)
        }
        Native::Util(native) => {
            let deed = util_deed(alloc, native, objects, args)?;
            Ok(deed)
        }
        Native::Junit(native) => Ok(junit_deed(native, args)),
    }
}

/// What a native method wants done with these arguments in a world.
#[tactic(auto, using(crate::proofs::Wanted::wanted))]
pub fn wanted(
    alloc: Global,
    world: &World,
    p: &Program,
    natives: &Natives,
    native: Native,
    args: &[Value],
) -> Result<Deed, Memory>
    requires natives { AreNatives p.now natives.now }
    ensures { IfOk result (λ d. Wants p.now world.now (meaning_of native) args.now d) }
{
    let _ = p.len();
    let objects = world.heap.objects();
    let deed = deed_among(alloc, natives, native, objects, args)?;
    Ok(deed)
}
