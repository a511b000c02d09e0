//! The operations on two ints or two longs. All other calls are stated by one equation.

ghost use Rattle.std.specs.Prelude.{◌≡◌, ℤ, true, false, Option, IfSome, IfNone};
ghost use Rattle.std.specs.Int.{Width, w32};
ghost use Rattle.program_rules.specs.declared.operation.Operation.{Operation};
ghost use Rattle.machine_rules.specs.Arithmetic.{operate, divides_by_zero};

use program_rules::Operation;

/// `int_op`. That of longs has the same contract at the other width.
pub fn int_op(op: Operation, a: i32, b: i32) -> Option<i32>
    ensures none { IfNone result (divides_by_zero op b ≡ true) }
    ensures some { IfSome result (λ c. c ≡ operate w32 op a b) }
    ensures divided { IfSome result (λ c. divides_by_zero op b ≡ false) }
{
    jvm_arith::int_op(op, a, b)
}

/// Law: each two results that meet the contract of `int_op` or `long_op` are equal.
pub fn an_operation_has_one_result()
    ensures { (w : Width) (op : Operation) (a b : ℤ) (x y : Option ℤ)
        → IfNone x (divides_by_zero op b ≡ true)
        → IfSome x (λ c. (c ≡ operate w op a b) × (divides_by_zero op b ≡ false))
        → IfNone y (divides_by_zero op b ≡ true)
        → IfSome y (λ c. (c ≡ operate w op a b) × (divides_by_zero op b ≡ false))
        → x ≡ y }
{}
