//! The numbers of a program's class files.

ghost use Rattle.std.specs.Prelude.{◌≡◌, ◌+◌, ◌≤◌, ◌^◌, IfOk};
ghost use Rattle.mutest_engine.specs.Numbers.{numbers_from, numbers_of};

use class_model::{ClassId, Memory, Seq};
use std::alloc::Global;

/// The numbers of so many classes, from this one on.
pub fn numbers_from(alloc: Global, first: u32, count: u32) -> Result<Seq<ClassId>, Memory>
    requires { first + count ≤ 2 ^ 32 }
    ensures { IfOk result (λ ids. numbers_of ids ≡ numbers_from first count) }
{
    let mut ids = Seq::new(alloc);
    for number in 0..count {
        ids.push(ClassId(first + number))?;
    }
    Ok(ids)
}
