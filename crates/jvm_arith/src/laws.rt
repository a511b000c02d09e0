//! Laws of the arithmetic.

ghost use Rattle.std.specs.Prelude.{◌≡◌, ◌≢◌, ℤ, pos, negsuc, int_div, int_rem};
ghost use Rattle.std.specs.Int.{w32, w64};
ghost use Rattle.class_model.specs.declared.kind.Kind.TheVariants.{Boolean};
ghost use Rattle.program_rules.specs.declared.operation.Operation.TheVariants.{Divide, Remainder};
ghost use Rattle.program_rules.specs.declared.operation.ShiftKind.TheVariants.{ShiftLeft};
ghost use Rattle.machine_rules.specs.Arithmetic.{operate, shift_by, int_distance, long_distance};
ghost use Rattle.jvm_arith.specs.Narrowing.{narrowed};
ghost use Rattle.jvm_arith.specs.Division.{IsDivision};

/// Law: a quotient is rounded towards 0, and its remainder has the dividend's sign.
pub fn division_rounds_towards_zero()
    ensures { (a b : ℤ) → b ≢ pos 0 → IsDivision a b (int_div a b) (int_rem a b) }
{}

/// Results at the edges: the least int and the least long over -1 are themselves, a long is shifted
/// by the low six bits of the count and an int by the low five, and a boolean keeps its low bit.
pub fn edges()
    ensures least_int { operate w32 Divide (negsuc 2147483647) (negsuc 0) ≡ negsuc 2147483647 }
    ensures least_long { operate w64 Divide (negsuc 9223372036854775807) (negsuc 0)
        ≡ negsuc 9223372036854775807 }
    ensures no_rest { operate w32 Remainder (negsuc 2147483647) (negsuc 0) ≡ pos 0 }
    ensures int_shift { shift_by w32 ShiftLeft (pos 1) (int_distance (pos 33)) ≡ pos 2 }
    ensures long_shift { shift_by w64 ShiftLeft (pos 1) (long_distance (pos 64)) ≡ pos 1 }
    ensures back_shift { shift_by w64 ShiftLeft (pos 1) (long_distance (negsuc 0))
        ≡ negsuc 9223372036854775807 }
    ensures boolean { narrowed Boolean (pos 2) ≡ pos 0 }
{}
