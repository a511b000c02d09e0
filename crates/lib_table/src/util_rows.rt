//! The collections and the assertions.

use crate::assertion_codes::{
    ASSERT_EQUAL_OBJECTS, ASSERT_EQUAL_OBJECTS_5, ASSERT_UNEQUAL_OBJECTS, ASSERT_UNEQUAL_OBJECTS_5,
};
use crate::list_codes::{LIST_CONTAINS, LIST_EQUALS, LIST_INDEX_OF, LIST_REMOVE};
use crate::map_codes::{
    FIND_ENTRY, MAP_CONTAINS_KEY, MAP_GET, MAP_PUT, MAP_REMOVE, SET_ADD, SET_CONTAINS, SET_REMOVE,
};
use crate::rows::{ClassRow, MethodRow};

const ARRAY_LIST_METHODS: [MethodRow; 17] = [
    MethodRow::Native(0, "<init>", "()V"),
    MethodRow::Native(86, "<init>", "(I)V"),
    MethodRow::Native(87, "size", "()I"),
    MethodRow::Native(88, "isEmpty", "()Z"),
    MethodRow::Native(90, "get", "(I)Ljava/lang/Object;"),
    MethodRow::Native(91, "set", "(ILjava/lang/Object;)Ljava/lang/Object;"),
    MethodRow::Native(92, "add", "(Ljava/lang/Object;)Z"),
    MethodRow::Native(93, "add", "(ILjava/lang/Object;)V"),
    MethodRow::Native(94, "remove", "(I)Ljava/lang/Object;"),
    MethodRow::Native(89, "clear", "()V"),
    MethodRow::Native(105, "iterator", "()Ljava/util/Iterator;"),
    MethodRow::Native(95, "hashCode", "()I"),
    MethodRow::Native(95, "toString", "()Ljava/lang/String;"),
    MethodRow::Written("indexOf", "(Ljava/lang/Object;)I", &LIST_INDEX_OF),
    MethodRow::Written("contains", "(Ljava/lang/Object;)Z", &LIST_CONTAINS),
    MethodRow::Written("remove", "(Ljava/lang/Object;)Z", &LIST_REMOVE),
    MethodRow::Written("equals", "(Ljava/lang/Object;)Z", &LIST_EQUALS),
];

const HASHED_METHODS: [MethodRow; 8] = [
    MethodRow::Native(96, "$size", "()I"),
    MethodRow::Native(97, "$hash", "(I)I"),
    MethodRow::Native(98, "$key", "(I)Ljava/lang/Object;"),
    MethodRow::Native(99, "$value", "(I)Ljava/lang/Object;"),
    MethodRow::Native(100, "$set", "(ILjava/lang/Object;)Ljava/lang/Object;"),
    MethodRow::Native(101, "$add", "(ILjava/lang/Object;Ljava/lang/Object;)V"),
    MethodRow::Native(102, "$cut", "(I)Ljava/lang/Object;"),
    MethodRow::Written("find", "(Ljava/lang/Object;)I", &FIND_ENTRY),
];

const HASH_MAP_METHODS: [MethodRow; 13] = [
    MethodRow::Native(0, "<init>", "()V"),
    MethodRow::Native(96, "size", "()I"),
    MethodRow::Native(88, "isEmpty", "()Z"),
    MethodRow::Native(89, "clear", "()V"),
    MethodRow::Native(95, "equals", "(Ljava/lang/Object;)Z"),
    MethodRow::Native(95, "hashCode", "()I"),
    MethodRow::Native(95, "toString", "()Ljava/lang/String;"),
    MethodRow::Native(103, "keySet", "()Ljava/util/Set;"),
    MethodRow::Native(104, "values", "()Ljava/util/Collection;"),
    MethodRow::Written("get", "(Ljava/lang/Object;)Ljava/lang/Object;", &MAP_GET),
    MethodRow::Written(
        "remove",
        "(Ljava/lang/Object;)Ljava/lang/Object;",
        &MAP_REMOVE,
    ),
    MethodRow::Written(
        "put",
        "(Ljava/lang/Object;Ljava/lang/Object;)Ljava/lang/Object;",
        &MAP_PUT,
    ),
    MethodRow::Written("containsKey", "(Ljava/lang/Object;)Z", &MAP_CONTAINS_KEY),
];

const HASH_SET_METHODS: [MethodRow; 11] = [
    MethodRow::Native(0, "<init>", "()V"),
    MethodRow::Native(96, "size", "()I"),
    MethodRow::Native(88, "isEmpty", "()Z"),
    MethodRow::Native(89, "clear", "()V"),
    MethodRow::Native(95, "equals", "(Ljava/lang/Object;)Z"),
    MethodRow::Native(95, "hashCode", "()I"),
    MethodRow::Native(95, "toString", "()Ljava/lang/String;"),
    MethodRow::Native(106, "iterator", "()Ljava/util/Iterator;"),
    MethodRow::Written("contains", "(Ljava/lang/Object;)Z", &SET_CONTAINS),
    MethodRow::Written("add", "(Ljava/lang/Object;)Z", &SET_ADD),
    MethodRow::Written("remove", "(Ljava/lang/Object;)Z", &SET_REMOVE),
];

const ITER_METHODS: [MethodRow; 2] = [
    MethodRow::Native(107, "hasNext", "()Z"),
    MethodRow::Native(108, "next", "()Ljava/lang/Object;"),
];

const COLLECTIONS_METHODS: [MethodRow; 2] = [
    MethodRow::StaticNative(109, "emptyList", "()Ljava/util/List;"),
    MethodRow::StaticNative(110, "emptySet", "()Ljava/util/Set;"),
];

const ARRAYS_METHODS: [MethodRow; 1] = [MethodRow::StaticNative(
    111,
    "asList",
    "([Ljava/lang/Object;)Ljava/util/List;",
)];

pub static LISTS: [ClassRow; 1] = [ClassRow::Class(
    "java/util/ArrayList",
    "java/lang/Object",
    &["java/util/List"],
    &ARRAY_LIST_METHODS,
)];

pub static HASHES: [ClassRow; 3] = [
    ClassRow::AbstractClass("mt/Hashed", "java/lang/Object", &[], &HASHED_METHODS),
    ClassRow::Class(
        "java/util/HashMap",
        "mt/Hashed",
        &["java/util/Map"],
        &HASH_MAP_METHODS,
    ),
    ClassRow::Class(
        "java/util/HashSet",
        "mt/Hashed",
        &["java/util/Set"],
        &HASH_SET_METHODS,
    ),
];

pub static UTILITIES: [ClassRow; 3] = [
    ClassRow::FinalClass(
        "mt/Iter",
        "java/lang/Object",
        &["java/util/Iterator"],
        &ITER_METHODS,
    ),
    ClassRow::Class(
        "java/util/Collections",
        "java/lang/Object",
        &[],
        &COLLECTIONS_METHODS,
    ),
    ClassRow::Class("java/util/Arrays", "java/lang/Object", &[], &ARRAYS_METHODS),
];

const ASSERT_METHODS: [MethodRow; 13] = [
    MethodRow::StaticNative(113, "assertEquals", "(JJ)V"),
    MethodRow::StaticNative(112, "assertEquals", "(II)V"),
    MethodRow::StaticNative(114, "assertTrue", "(Z)V"),
    MethodRow::StaticNative(115, "assertFalse", "(Z)V"),
    MethodRow::StaticNative(116, "assertNull", "(Ljava/lang/Object;)V"),
    MethodRow::StaticNative(117, "assertNotNull", "(Ljava/lang/Object;)V"),
    MethodRow::StaticNative(118, "assertSame", "(Ljava/lang/Object;Ljava/lang/Object;)V"),
    MethodRow::StaticNative(
        119,
        "assertNotSame",
        "(Ljava/lang/Object;Ljava/lang/Object;)V",
    ),
    MethodRow::StaticWritten(
        "assertEquals",
        "(Ljava/lang/Object;Ljava/lang/Object;)V",
        &ASSERT_EQUAL_OBJECTS,
    ),
    MethodRow::StaticWritten(
        "assertNotEquals",
        "(Ljava/lang/Object;Ljava/lang/Object;)V",
        &ASSERT_UNEQUAL_OBJECTS,
    ),
    MethodRow::StaticNative(120, "$fail", "()V"),
    MethodRow::StaticNative(120, "fail", "()V"),
    MethodRow::StaticNative(120, "fail", "(Ljava/lang/String;)V"),
];

const ASSERTIONS_METHODS: [MethodRow; 12] = [
    MethodRow::StaticNative(113, "assertEquals", "(JJ)V"),
    MethodRow::StaticNative(112, "assertEquals", "(II)V"),
    MethodRow::StaticNative(114, "assertTrue", "(Z)V"),
    MethodRow::StaticNative(115, "assertFalse", "(Z)V"),
    MethodRow::StaticNative(116, "assertNull", "(Ljava/lang/Object;)V"),
    MethodRow::StaticNative(117, "assertNotNull", "(Ljava/lang/Object;)V"),
    MethodRow::StaticNative(118, "assertSame", "(Ljava/lang/Object;Ljava/lang/Object;)V"),
    MethodRow::StaticNative(
        119,
        "assertNotSame",
        "(Ljava/lang/Object;Ljava/lang/Object;)V",
    ),
    MethodRow::StaticWritten(
        "assertEquals",
        "(Ljava/lang/Object;Ljava/lang/Object;)V",
        &ASSERT_EQUAL_OBJECTS_5,
    ),
    MethodRow::StaticWritten(
        "assertNotEquals",
        "(Ljava/lang/Object;Ljava/lang/Object;)V",
        &ASSERT_UNEQUAL_OBJECTS_5,
    ),
    MethodRow::StaticNative(120, "$fail", "()V"),
    MethodRow::StaticNative(120, "fail", "(Ljava/lang/String;)Ljava/lang/Object;"),
];

pub static ASSERTIONS: [ClassRow; 2] = [
    ClassRow::Class("org/junit/Assert", "java/lang/Object", &[], &ASSERT_METHODS),
    ClassRow::Class(
        "org/junit/jupiter/api/Assertions",
        "java/lang/Object",
        &[],
        &ASSERTIONS_METHODS,
    ),
];
