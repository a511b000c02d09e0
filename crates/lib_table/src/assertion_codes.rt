//! Written methods, each with its entries in the constant pool of its class, behind those of the
//! methods before it. An operand of a jump is the number of an instruction, counted from 0; the
//! first entry of a pool is number 1.

use crate::rows::{CodeRow, ConstRow, FrameRow, InsnRow};

// Assert.assertEquals(Object Object)
pub const ASSERT_EQUAL_OBJECTS: CodeRow = CodeRow {
    pool: &[
        ConstRow::Utf8("java/util/Objects"),
        ConstRow::Class(1),
        ConstRow::Utf8("equals"),
        ConstRow::Utf8("(Ljava/lang/Object;Ljava/lang/Object;)Z"),
        ConstRow::Pair(3, 4),
        ConstRow::Method(2, 5),
        ConstRow::Utf8("org/junit/Assert"),
        ConstRow::Class(7),
        ConstRow::Utf8("$fail"),
        ConstRow::Utf8("()V"),
        ConstRow::Pair(9, 10),
        ConstRow::Method(8, 11),
        ConstRow::Utf8("StackMapTable"),
    ],
    insns: &[
        InsnRow::Op(0x2a),
        InsnRow::Op(0x2b),
        InsnRow::Pool(0xb8, 6),
        InsnRow::Jump(0x9a, 5),
        InsnRow::Pool(0xb8, 12),
        InsnRow::Op(0xb1),
    ],
    table: 13,
    frames: &[FrameRow::Same(5)],
};

// Assert.assertNotEquals(Object Object)
pub const ASSERT_UNEQUAL_OBJECTS: CodeRow = CodeRow {
    pool: &[
        ConstRow::Utf8("java/util/Objects"),
        ConstRow::Class(14),
        ConstRow::Utf8("equals"),
        ConstRow::Utf8("(Ljava/lang/Object;Ljava/lang/Object;)Z"),
        ConstRow::Pair(16, 17),
        ConstRow::Method(15, 18),
        ConstRow::Utf8("org/junit/Assert"),
        ConstRow::Class(20),
        ConstRow::Utf8("$fail"),
        ConstRow::Utf8("()V"),
        ConstRow::Pair(22, 23),
        ConstRow::Method(21, 24),
        ConstRow::Utf8("StackMapTable"),
    ],
    insns: &[
        InsnRow::Op(0x2a),
        InsnRow::Op(0x2b),
        InsnRow::Pool(0xb8, 19),
        InsnRow::Jump(0x99, 5),
        InsnRow::Pool(0xb8, 25),
        InsnRow::Op(0xb1),
    ],
    table: 26,
    frames: &[FrameRow::Same(5)],
};

// Assertions.assertEquals(Object Object)
pub const ASSERT_EQUAL_OBJECTS_5: CodeRow = CodeRow {
    pool: &[
        ConstRow::Utf8("java/util/Objects"),
        ConstRow::Class(1),
        ConstRow::Utf8("equals"),
        ConstRow::Utf8("(Ljava/lang/Object;Ljava/lang/Object;)Z"),
        ConstRow::Pair(3, 4),
        ConstRow::Method(2, 5),
        ConstRow::Utf8("org/junit/jupiter/api/Assertions"),
        ConstRow::Class(7),
        ConstRow::Utf8("$fail"),
        ConstRow::Utf8("()V"),
        ConstRow::Pair(9, 10),
        ConstRow::Method(8, 11),
        ConstRow::Utf8("StackMapTable"),
    ],
    insns: &[
        InsnRow::Op(0x2a),
        InsnRow::Op(0x2b),
        InsnRow::Pool(0xb8, 6),
        InsnRow::Jump(0x9a, 5),
        InsnRow::Pool(0xb8, 12),
        InsnRow::Op(0xb1),
    ],
    table: 13,
    frames: &[FrameRow::Same(5)],
};

// Assertions.assertNotEquals(Object Object)
pub const ASSERT_UNEQUAL_OBJECTS_5: CodeRow = CodeRow {
    pool: &[
        ConstRow::Utf8("java/util/Objects"),
        ConstRow::Class(14),
        ConstRow::Utf8("equals"),
        ConstRow::Utf8("(Ljava/lang/Object;Ljava/lang/Object;)Z"),
        ConstRow::Pair(16, 17),
        ConstRow::Method(15, 18),
        ConstRow::Utf8("org/junit/jupiter/api/Assertions"),
        ConstRow::Class(20),
        ConstRow::Utf8("$fail"),
        ConstRow::Utf8("()V"),
        ConstRow::Pair(22, 23),
        ConstRow::Method(21, 24),
        ConstRow::Utf8("StackMapTable"),
    ],
    insns: &[
        InsnRow::Op(0x2a),
        InsnRow::Op(0x2b),
        InsnRow::Pool(0xb8, 19),
        InsnRow::Jump(0x99, 5),
        InsnRow::Pool(0xb8, 25),
        InsnRow::Op(0xb1),
    ],
    table: 26,
    frames: &[FrameRow::Same(5)],
};
