// Every number here was computed by `java` (OpenJDK 17).

use class_model::{Kind, Seq};
use jvm_arith::{
    int_neg, int_op, int_shift, long_compare, long_neg, long_op, long_shift, long_to_int, narrow,
};
use program_rules::{Operation, ShiftKind};
use std::test::Fail;

const LEAST: i32 = i32::MIN;

const GREATEST: i32 = i32::MAX;

// An operation, its operands, and its result; none where it divides by zero.
type IntRow = (Operation, i32, i32, Option<i32>);

const INT_OPERATIONS: [IntRow; 18] = [
    (Operation::Plus, LEAST, -1, Some(GREATEST)),
    (Operation::Plus, GREATEST, 1, Some(LEAST)),
    (Operation::Minus, LEAST, 1, Some(GREATEST)),
    (Operation::Minus, LEAST, -1, Some(-2147483647)),
    (Operation::Times, LEAST, -1, Some(LEAST)),
    (Operation::Times, GREATEST, GREATEST, Some(1)),
    (Operation::Times, 65536, 65536, Some(0)),
    (Operation::Divide, LEAST, -1, Some(LEAST)),
    (Operation::Divide, -7, 2, Some(-3)),
    (Operation::Divide, 7, -2, Some(-3)),
    (Operation::Divide, 5, 0, None),
    (Operation::Remainder, LEAST, -1, Some(0)),
    (Operation::Remainder, -7, 2, Some(-1)),
    (Operation::Remainder, 7, -2, Some(1)),
    (Operation::Remainder, 5, 0, None),
    (Operation::BitAnd, 7, -2, Some(6)),
    (Operation::BitOr, -7, 2, Some(-5)),
    (Operation::BitXor, LEAST, -1, Some(GREATEST)),
];

const LEAST_LONG: i64 = i64::MIN;

const GREATEST_LONG: i64 = i64::MAX;

type LongRow = (Operation, i64, i64, Option<i64>);

const LONG_OPERATIONS: [LongRow; 18] = [
    (Operation::Plus, LEAST_LONG, -1, Some(GREATEST_LONG)),
    (Operation::Plus, GREATEST_LONG, 1, Some(LEAST_LONG)),
    (Operation::Minus, LEAST_LONG, 1, Some(GREATEST_LONG)),
    (Operation::Minus, LEAST_LONG, -1, Some(-9223372036854775807)),
    (Operation::Times, LEAST_LONG, -1, Some(LEAST_LONG)),
    (Operation::Times, GREATEST_LONG, GREATEST_LONG, Some(1)),
    (Operation::Times, 4294967296, 4294967296, Some(0)),
    (Operation::Divide, LEAST_LONG, -1, Some(LEAST_LONG)),
    (Operation::Divide, -7, 2, Some(-3)),
    (Operation::Divide, 7, -2, Some(-3)),
    (Operation::Divide, 5, 0, None),
    (Operation::Remainder, LEAST_LONG, -1, Some(0)),
    (Operation::Remainder, -7, 2, Some(-1)),
    (Operation::Remainder, 7, -2, Some(1)),
    (Operation::Remainder, 5, 0, None),
    (Operation::BitAnd, 7, -2, Some(6)),
    (Operation::BitOr, -7, 2, Some(-5)),
    (Operation::BitXor, LEAST_LONG, -1, Some(GREATEST_LONG)),
];

// The number of the first row with another result; how many rows there are, where none has.
fn first_other_int(rows: &[IntRow]) -> usize {
    for i in 0..rows.len() {
        let (op, a, b, wanted) = rows[i];
        if int_op(op, a, b) != wanted {
            return i;
        }
    }
    rows.len()
}

fn first_other_long(rows: &[LongRow]) -> usize {
    for i in 0..rows.len() {
        let (op, a, b, wanted) = rows[i];
        if long_op(op, a, b) != wanted {
            return i;
        }
    }
    rows.len()
}

fn other_int() -> usize {
    first_other_int(&INT_OPERATIONS)
}

fn other_long() -> usize {
    first_other_long(&LONG_OPERATIONS)
}

#[test]
fn operations_at_the_edges(rt: HostRuntime) -> Result<(), Fail> {
    assert_eq!(rt; other_int(), 18);
    assert_eq!(rt; other_long(), 18);
    Ok(())
}

// What is shifted, the count, and the result.
type IntShiftRow = (ShiftKind, i32, i32, i32);

const INT_SHIFTS: [IntShiftRow; 9] = [
    (ShiftKind::ShiftLeft, 1, 31, LEAST),
    (ShiftKind::ShiftLeft, 1, 32, 1),
    (ShiftKind::ShiftLeft, 1, -1, LEAST),
    (ShiftKind::ShiftLeft, GREATEST, 1, -2),
    (ShiftKind::ShiftRight, -8, 1, -4),
    (ShiftKind::ShiftRight, LEAST, 31, -1),
    (ShiftKind::ShiftUnsigned, -8, 1, 2147483644),
    (ShiftKind::ShiftUnsigned, LEAST, -1, 1),
    (ShiftKind::ShiftUnsigned, -1, 0, -1),
];

type LongShiftRow = (ShiftKind, i64, i32, i64);

const LONG_SHIFTS: [LongShiftRow; 9] = [
    (ShiftKind::ShiftLeft, 1, 32, 4294967296),
    (ShiftKind::ShiftLeft, 1, 63, LEAST_LONG),
    (ShiftKind::ShiftLeft, 1, 64, 1),
    (ShiftKind::ShiftLeft, 1, -1, LEAST_LONG),
    (ShiftKind::ShiftRight, -8, 1, -4),
    (ShiftKind::ShiftRight, LEAST_LONG, 63, -1),
    (ShiftKind::ShiftUnsigned, -8, 1, 9223372036854775804),
    (ShiftKind::ShiftUnsigned, LEAST_LONG, -1, 1),
    (ShiftKind::ShiftUnsigned, -1, 0, -1),
];

fn first_other_int_shift(rows: &[IntShiftRow]) -> usize {
    for i in 0..rows.len() {
        let (op, a, by, wanted) = rows[i];
        if int_shift(op, a, by) != wanted {
            return i;
        }
    }
    rows.len()
}

fn first_other_long_shift(rows: &[LongShiftRow]) -> usize {
    for i in 0..rows.len() {
        let (op, a, by, wanted) = rows[i];
        if long_shift(op, a, by) != wanted {
            return i;
        }
    }
    rows.len()
}

fn other_int_shift() -> usize {
    first_other_int_shift(&INT_SHIFTS)
}

fn other_long_shift() -> usize {
    first_other_long_shift(&LONG_SHIFTS)
}

#[test]
fn shifts_go_by_the_low_bits_of_the_count(rt: HostRuntime) -> Result<(), Fail> {
    assert_eq!(rt; other_int_shift(), 9);
    assert_eq!(rt; other_long_shift(), 9);
    Ok(())
}

// A kind, an int, and what is left of it at that kind.
fn narrowed(name: Seq<u16>) -> [(Kind, i32, i32); 12] {
    [
        (Kind::Boolean, 2, 0),
        (Kind::Boolean, -1, 1),
        (Kind::Boolean, LEAST, 0),
        (Kind::Byte, 128, -128),
        (Kind::Byte, -129, 127),
        (Kind::Char, -1, 65535),
        (Kind::Char, 65536, 0),
        (Kind::Short, 32768, -32768),
        (Kind::Short, -32769, 32767),
        (Kind::Int, LEAST, LEAST),
        (Kind::Long, GREATEST, GREATEST),
        (Kind::Ref(name), GREATEST, GREATEST),
    ]
}

#[test]
fn opposites_comparisons_and_narrowing(rt: HostRuntime) -> Result<(), Fail> {
    for (a, wanted) in [(LEAST, LEAST), (GREATEST, -2147483647), (0, 0)] {
        assert_eq!(rt; int_neg(a), wanted);
    }
    for (a, wanted) in [
        (LEAST_LONG, LEAST_LONG),
        (GREATEST_LONG, -9223372036854775807),
        (-1, 1),
    ] {
        assert_eq!(rt; long_neg(a), wanted);
    }
    for (a, b, wanted) in [
        (LEAST_LONG, GREATEST_LONG, -1),
        (GREATEST_LONG, LEAST_LONG, 1),
        (5, 5, 0),
    ] {
        assert_eq!(rt; long_compare(a, b), wanted);
    }
    for (kind, a, wanted) in narrowed(Seq::new(rt.alloc())) {
        assert_eq!(rt; narrow(kind, a), wanted, "of {a}");
    }
    for (a, wanted) in [
        (LEAST_LONG, 0),
        (-2147483649, GREATEST),
        (4294967295, -1),
        (GREATEST_LONG, -1),
    ] {
        assert_eq!(rt; long_to_int(a), wanted, "of {a}");
    }
    Ok(())
}
