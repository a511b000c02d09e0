//! The classes of `java/lang`, with Optional and Objects.

use crate::lang_codes::{APPEND_ANY, EQUAL_OBJECTS, HASH_OF_OBJECT, TEXT_OF_ANY};
use crate::rows::{ClassRow, MethodRow};

const OBJECT_METHODS: [MethodRow; 5] = [
    MethodRow::Native(0, "<init>", "()V"),
    MethodRow::Native(1, "equals", "(Ljava/lang/Object;)Z"),
    MethodRow::Native(2, "hashCode", "()I"),
    MethodRow::Native(3, "toString", "()Ljava/lang/String;"),
    MethodRow::Native(10, "getClass", "()Ljava/lang/Class;"),
];

const CLASS_METHODS: [MethodRow; 2] = [
    MethodRow::Native(4, "getName", "()Ljava/lang/String;"),
    MethodRow::Native(5, "desiredAssertionStatus", "()Z"),
];

const ENUM_METHODS: [MethodRow; 8] = [
    MethodRow::Native(6, "<init>", "(Ljava/lang/String;I)V"),
    MethodRow::Native(7, "name", "()Ljava/lang/String;"),
    MethodRow::Native(8, "ordinal", "()I"),
    MethodRow::Native(7, "toString", "()Ljava/lang/String;"),
    MethodRow::Native(121, "compareTo", "(Ljava/lang/Object;)I"),
    MethodRow::Native(9, "compareTo", "(Ljava/lang/Enum;)I"),
    MethodRow::Native(1, "equals", "(Ljava/lang/Object;)Z"),
    MethodRow::Native(2, "hashCode", "()I"),
];

const OPTIONAL_METHODS: [MethodRow; 6] = [
    MethodRow::StaticNative(16, "empty", "()Ljava/util/Optional;"),
    MethodRow::StaticNative(17, "of", "(Ljava/lang/Object;)Ljava/util/Optional;"),
    MethodRow::StaticNative(18, "ofNullable", "(Ljava/lang/Object;)Ljava/util/Optional;"),
    MethodRow::Native(19, "isPresent", "()Z"),
    MethodRow::Native(20, "get", "()Ljava/lang/Object;"),
    MethodRow::Native(21, "orElse", "(Ljava/lang/Object;)Ljava/lang/Object;"),
];

const OBJECTS_METHODS: [MethodRow; 2] = [
    MethodRow::StaticWritten(
        "equals",
        "(Ljava/lang/Object;Ljava/lang/Object;)Z",
        &EQUAL_OBJECTS,
    ),
    MethodRow::StaticWritten("hashCode", "(Ljava/lang/Object;)I", &HASH_OF_OBJECT),
];

pub static OBJECTS: [ClassRow; 5] = [
    ClassRow::Root("java/lang/Object", &OBJECT_METHODS),
    ClassRow::FinalClass("java/lang/Class", "java/lang/Object", &[], &CLASS_METHODS),
    ClassRow::AbstractClass(
        "java/lang/Enum",
        "java/lang/Object",
        &["java/lang/Comparable"],
        &ENUM_METHODS,
    ),
    ClassRow::FinalClass(
        "java/util/Optional",
        "java/lang/Object",
        &[],
        &OPTIONAL_METHODS,
    ),
    ClassRow::FinalClass(
        "java/util/Objects",
        "java/lang/Object",
        &[],
        &OBJECTS_METHODS,
    ),
];

const STRING_METHODS: [MethodRow; 21] = [
    MethodRow::Native(22, "length", "()I"),
    MethodRow::Native(24, "charAt", "(I)C"),
    MethodRow::Native(23, "isEmpty", "()Z"),
    MethodRow::Native(25, "equals", "(Ljava/lang/Object;)Z"),
    MethodRow::Native(26, "hashCode", "()I"),
    MethodRow::Native(27, "compareTo", "(Ljava/lang/String;)I"),
    MethodRow::Native(28, "compareTo", "(Ljava/lang/Object;)I"),
    MethodRow::Native(29, "concat", "(Ljava/lang/String;)Ljava/lang/String;"),
    MethodRow::Native(30, "substring", "(I)Ljava/lang/String;"),
    MethodRow::Native(31, "substring", "(II)Ljava/lang/String;"),
    MethodRow::Native(32, "indexOf", "(I)I"),
    MethodRow::Native(33, "indexOf", "(Ljava/lang/String;)I"),
    MethodRow::Native(34, "startsWith", "(Ljava/lang/String;)Z"),
    MethodRow::Native(35, "endsWith", "(Ljava/lang/String;)Z"),
    MethodRow::Native(122, "toCharArray", "()[C"),
    MethodRow::Native(36, "toString", "()Ljava/lang/String;"),
    MethodRow::StaticNative(37, "valueOf", "(I)Ljava/lang/String;"),
    MethodRow::StaticNative(38, "valueOf", "(J)Ljava/lang/String;"),
    MethodRow::StaticNative(39, "valueOf", "(C)Ljava/lang/String;"),
    MethodRow::StaticNative(40, "valueOf", "(Z)Ljava/lang/String;"),
    MethodRow::StaticWritten(
        "valueOf",
        "(Ljava/lang/Object;)Ljava/lang/String;",
        &TEXT_OF_ANY,
    ),
];

const STRING_BUILDER_METHODS: [MethodRow; 12] = [
    MethodRow::Native(0, "<init>", "()V"),
    MethodRow::Native(41, "<init>", "(I)V"),
    MethodRow::Native(42, "<init>", "(Ljava/lang/String;)V"),
    MethodRow::Native(
        43,
        "append",
        "(Ljava/lang/String;)Ljava/lang/StringBuilder;",
    ),
    MethodRow::Native(44, "append", "(I)Ljava/lang/StringBuilder;"),
    MethodRow::Native(45, "append", "(J)Ljava/lang/StringBuilder;"),
    MethodRow::Native(46, "append", "(C)Ljava/lang/StringBuilder;"),
    MethodRow::Native(47, "append", "(Z)Ljava/lang/StringBuilder;"),
    MethodRow::Native(22, "length", "()I"),
    MethodRow::Native(24, "charAt", "(I)C"),
    MethodRow::Native(48, "toString", "()Ljava/lang/String;"),
    MethodRow::Written(
        "append",
        "(Ljava/lang/Object;)Ljava/lang/StringBuilder;",
        &APPEND_ANY,
    ),
];

const CHARACTER_METHODS: [MethodRow; 7] = [
    MethodRow::StaticNative(53, "valueOf", "(C)Ljava/lang/Character;"),
    MethodRow::Native(69, "equals", "(Ljava/lang/Object;)Z"),
    MethodRow::Native(55, "charValue", "()C"),
    MethodRow::Native(55, "hashCode", "()I"),
    MethodRow::Native(63, "toString", "()Ljava/lang/String;"),
    MethodRow::StaticNative(77, "isDigit", "(C)Z"),
    MethodRow::StaticNative(78, "isLetter", "(C)Z"),
];

const BOOLEAN_METHODS: [MethodRow; 5] = [
    MethodRow::StaticNative(54, "valueOf", "(Z)Ljava/lang/Boolean;"),
    MethodRow::Native(70, "equals", "(Ljava/lang/Object;)Z"),
    MethodRow::Native(55, "booleanValue", "()Z"),
    MethodRow::Native(60, "hashCode", "()I"),
    MethodRow::Native(64, "toString", "()Ljava/lang/String;"),
];

pub static TEXTS: [ClassRow; 4] = [
    ClassRow::FinalClass(
        "java/lang/String",
        "java/lang/Object",
        &["java/lang/CharSequence", "java/lang/Comparable"],
        &STRING_METHODS,
    ),
    ClassRow::FinalClass(
        "java/lang/StringBuilder",
        "java/lang/Object",
        &[],
        &STRING_BUILDER_METHODS,
    ),
    ClassRow::FinalClass(
        "java/lang/Character",
        "java/lang/Object",
        &[],
        &CHARACTER_METHODS,
    ),
    ClassRow::FinalClass(
        "java/lang/Boolean",
        "java/lang/Object",
        &[],
        &BOOLEAN_METHODS,
    ),
];

const INTEGER_METHODS: [MethodRow; 10] = [
    MethodRow::StaticNative(49, "valueOf", "(I)Ljava/lang/Integer;"),
    MethodRow::Native(65, "equals", "(Ljava/lang/Object;)Z"),
    MethodRow::Native(55, "intValue", "()I"),
    MethodRow::Native(56, "longValue", "()J"),
    MethodRow::Native(55, "hashCode", "()I"),
    MethodRow::Native(61, "toString", "()Ljava/lang/String;"),
    MethodRow::Native(71, "compareTo", "(Ljava/lang/Integer;)I"),
    MethodRow::StaticNative(74, "compare", "(II)I"),
    MethodRow::StaticNative(37, "toString", "(I)Ljava/lang/String;"),
    MethodRow::StaticNative(76, "parseInt", "(Ljava/lang/String;)I"),
];

const LONG_METHODS: [MethodRow; 8] = [
    MethodRow::StaticNative(50, "valueOf", "(J)Ljava/lang/Long;"),
    MethodRow::Native(66, "equals", "(Ljava/lang/Object;)Z"),
    MethodRow::Native(58, "intValue", "()I"),
    MethodRow::Native(57, "longValue", "()J"),
    MethodRow::Native(59, "hashCode", "()I"),
    MethodRow::Native(62, "toString", "()Ljava/lang/String;"),
    MethodRow::Native(72, "compareTo", "(Ljava/lang/Long;)I"),
    MethodRow::StaticNative(75, "compare", "(JJ)I"),
];

const SHORT_METHODS: [MethodRow; 6] = [
    MethodRow::StaticNative(51, "valueOf", "(S)Ljava/lang/Short;"),
    MethodRow::Native(67, "equals", "(Ljava/lang/Object;)Z"),
    MethodRow::Native(55, "shortValue", "()S"),
    MethodRow::Native(55, "hashCode", "()I"),
    MethodRow::Native(61, "toString", "()Ljava/lang/String;"),
    MethodRow::Native(73, "compareTo", "(Ljava/lang/Short;)I"),
];

const BYTE_METHODS: [MethodRow; 6] = [
    MethodRow::StaticNative(52, "valueOf", "(B)Ljava/lang/Byte;"),
    MethodRow::Native(68, "equals", "(Ljava/lang/Object;)Z"),
    MethodRow::Native(55, "byteValue", "()B"),
    MethodRow::Native(55, "hashCode", "()I"),
    MethodRow::Native(61, "toString", "()Ljava/lang/String;"),
    MethodRow::Native(73, "compareTo", "(Ljava/lang/Byte;)I"),
];

const MATH_METHODS: [MethodRow; 7] = [
    MethodRow::StaticNative(79, "abs", "(I)I"),
    MethodRow::StaticNative(80, "abs", "(J)J"),
    MethodRow::StaticNative(81, "max", "(II)I"),
    MethodRow::StaticNative(82, "max", "(JJ)J"),
    MethodRow::StaticNative(83, "min", "(II)I"),
    MethodRow::StaticNative(84, "min", "(JJ)J"),
    MethodRow::StaticNative(85, "floorMod", "(II)I"),
];

pub static NUMBERS: [ClassRow; 6] = [
    ClassRow::AbstractClass("java/lang/Number", "java/lang/Object", &[], &[]),
    ClassRow::FinalClass(
        "java/lang/Integer",
        "java/lang/Number",
        &[],
        &INTEGER_METHODS,
    ),
    ClassRow::FinalClass("java/lang/Long", "java/lang/Number", &[], &LONG_METHODS),
    ClassRow::FinalClass("java/lang/Short", "java/lang/Number", &[], &SHORT_METHODS),
    ClassRow::FinalClass("java/lang/Byte", "java/lang/Number", &[], &BYTE_METHODS),
    ClassRow::FinalClass("java/lang/Math", "java/lang/Object", &[], &MATH_METHODS),
];
