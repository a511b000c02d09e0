//! Written methods, each with its entries in the constant pool of its class, behind those of the
//! methods before it. An operand of a jump is the number of an instruction, counted from 0; the
//! first entry of a pool is number 1.

use crate::rows::{CodeRow, ConstRow, FrameRow, InsnRow};

// Objects.equals(Object Object)
pub const EQUAL_OBJECTS: CodeRow = CodeRow {
    pool: &[
        ConstRow::Utf8("java/lang/Object"),
        ConstRow::Class(1),
        ConstRow::Utf8("equals"),
        ConstRow::Utf8("(Ljava/lang/Object;)Z"),
        ConstRow::Pair(3, 4),
        ConstRow::Method(2, 5),
        ConstRow::Utf8("StackMapTable"),
    ],
    insns: &[
        InsnRow::Op(0x2a),
        InsnRow::Op(0x2b),
        InsnRow::Jump(0xa6, 5),
        InsnRow::Op(0x04),
        InsnRow::Op(0xac),
        InsnRow::Op(0x2a),
        InsnRow::Jump(0xc7, 9),
        InsnRow::Op(0x03),
        InsnRow::Op(0xac),
        InsnRow::Op(0x2a),
        InsnRow::Op(0x2b),
        InsnRow::Pool(0xb6, 6),
        InsnRow::Op(0xac),
    ],
    table: 7,
    frames: &[FrameRow::Same(5), FrameRow::Same(9)],
};

// Objects.hashCode(Object)
pub const HASH_OF_OBJECT: CodeRow = CodeRow {
    pool: &[
        ConstRow::Utf8("java/lang/Object"),
        ConstRow::Class(8),
        ConstRow::Utf8("hashCode"),
        ConstRow::Utf8("()I"),
        ConstRow::Pair(10, 11),
        ConstRow::Method(9, 12),
        ConstRow::Utf8("StackMapTable"),
    ],
    insns: &[
        InsnRow::Op(0x2a),
        InsnRow::Jump(0xc7, 4),
        InsnRow::Op(0x03),
        InsnRow::Op(0xac),
        InsnRow::Op(0x2a),
        InsnRow::Pool(0xb6, 13),
        InsnRow::Op(0xac),
    ],
    table: 14,
    frames: &[FrameRow::Same(4)],
};

// String.valueOf(Object)
pub const TEXT_OF_ANY: CodeRow = CodeRow {
    pool: &[
        ConstRow::Utf8("null"),
        ConstRow::Text(1),
        ConstRow::Utf8("java/lang/Object"),
        ConstRow::Class(3),
        ConstRow::Utf8("toString"),
        ConstRow::Utf8("()Ljava/lang/String;"),
        ConstRow::Pair(5, 6),
        ConstRow::Method(4, 7),
        ConstRow::Utf8("StackMapTable"),
    ],
    insns: &[
        InsnRow::Op(0x2a),
        InsnRow::Jump(0xc7, 4),
        InsnRow::Pool(0x12, 2),
        InsnRow::Op(0xb0),
        InsnRow::Op(0x2a),
        InsnRow::Pool(0xb6, 8),
        InsnRow::Op(0xb0),
    ],
    table: 9,
    frames: &[FrameRow::Same(4)],
};

// StringBuilder.append(Object)
pub const APPEND_ANY: CodeRow = CodeRow {
    pool: &[
        ConstRow::Utf8("java/lang/String"),
        ConstRow::Class(1),
        ConstRow::Utf8("valueOf"),
        ConstRow::Utf8("(Ljava/lang/Object;)Ljava/lang/String;"),
        ConstRow::Pair(3, 4),
        ConstRow::Method(2, 5),
        ConstRow::Utf8("java/lang/StringBuilder"),
        ConstRow::Class(7),
        ConstRow::Utf8("append"),
        ConstRow::Utf8("(Ljava/lang/String;)Ljava/lang/StringBuilder;"),
        ConstRow::Pair(9, 10),
        ConstRow::Method(8, 11),
        ConstRow::Utf8("StackMapTable"),
    ],
    insns: &[
        InsnRow::Op(0x2a),
        InsnRow::Op(0x2b),
        InsnRow::Pool(0xb8, 6),
        InsnRow::Pool(0xb6, 12),
        InsnRow::Op(0xb0),
    ],
    table: 13,
    frames: &[],
};
