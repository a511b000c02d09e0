//! Operations on ints.

ghost use Rattle.std.specs.Prelude.{◌≡◌, true, false, IfSome, IfNone};
ghost use Rattle.std.specs.Int.{w32};
ghost use Rattle.machine_rules.specs.Arithmetic.{operate, divides_by_zero};

use program_rules::Operation;

/// `int_op` of `jvm_arith`.
pub fn int_op(op: Operation, a: i32, b: i32) -> Option<i32>
    ensures none { IfNone result (divides_by_zero op b ≡ true) }
    ensures some { IfSome result (λ c. c ≡ operate w32 op a b) }
    ensures divided { IfSome result (λ c. divides_by_zero op b ≡ false) }
{
    let done = jvm_arith::int_op(op, a, b)?;
    Some(done)
}
