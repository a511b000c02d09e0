//! Whether an object may be thrown in each code.

ghost use Rattle.std.specs.Prelude.{◌≡◌, true};
ghost use Rattle.class_table.specs.Table.{look};
ghost use Rattle.jvm_run.specs.Below.{HaveRoomToLand};
ghost use Rattle.machine_answers.specs.Landing.{HasRoom, HaveRoom};

use class_link::{LinkedBody, LinkedMethod};
use class_model::ClassId;
use class_table::Program;

fn has_room(method: &LinkedMethod) -> bool
    ensures { result ≡ true → HasRoom method.now }
{
    match &method.body {
        LinkedBody::Code(code) => code.max_stack != 0 || code.rows.is_empty(),
        LinkedBody::Native(_) => true,
        LinkedBody::Absent => true,
    }
}

fn have_room(methods: &[LinkedMethod]) -> bool
    ensures { result ≡ true → HaveRoom methods.now }
{
    for method in methods {
        if !has_room(method) {
            return false;
        }
    }
    true
}

/// Whether each code that has exception rows has room for an object on its stack, as all accepted
/// code has (JVMS 4.10.1.6).
pub fn can_land(program: &Program) -> bool
    ensures { result ≡ true → HaveRoomToLand (look program.now) }
{
    let count = program.len() as u32;
    for id in 0..count {
        let linked = program.info(ClassId(id)).linked();
        if !have_room(linked.methods.as_slice()) {
            return false;
        }
    }
    true
}
