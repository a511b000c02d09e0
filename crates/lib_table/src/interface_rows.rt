//! The interfaces of the library.

use crate::rows::{ClassRow, MethodRow};

const CHAR_SEQUENCE_METHODS: [MethodRow; 2] = [
    MethodRow::Abstract("length", "()I"),
    MethodRow::Abstract("charAt", "(I)C"),
];

const COMPARABLE_METHODS: [MethodRow; 1] = [MethodRow::Abstract(
    "compareTo",
    "(Ljava/lang/Object;)I",
)];

const ITERABLE_METHODS: [MethodRow; 1] = [MethodRow::Abstract(
    "iterator",
    "()Ljava/util/Iterator;",
)];

const RUNNABLE_METHODS: [MethodRow; 1] = [MethodRow::Abstract("run", "()V")];

const AUTO_CLOSEABLE_METHODS: [MethodRow; 1] = [MethodRow::Abstract("close", "()V")];

pub static BASIC_INTERFACES: [ClassRow; 7] = [
    ClassRow::Interface("java/lang/CharSequence", &[], &CHAR_SEQUENCE_METHODS),
    ClassRow::Interface("java/lang/Comparable", &[], &COMPARABLE_METHODS),
    ClassRow::Interface("java/lang/Iterable", &[], &ITERABLE_METHODS),
    ClassRow::Interface("java/lang/Runnable", &[], &RUNNABLE_METHODS),
    ClassRow::Interface("java/lang/AutoCloseable", &[], &AUTO_CLOSEABLE_METHODS),
    ClassRow::Interface("java/lang/Cloneable", &[], &[]),
    ClassRow::Interface("java/io/Serializable", &[], &[]),
];

const ITERATOR_METHODS: [MethodRow; 2] = [
    MethodRow::Abstract("hasNext", "()Z"),
    MethodRow::Abstract("next", "()Ljava/lang/Object;"),
];

const COLLECTION_METHODS: [MethodRow; 6] = [
    MethodRow::Abstract("size", "()I"),
    MethodRow::Abstract("isEmpty", "()Z"),
    MethodRow::Abstract("contains", "(Ljava/lang/Object;)Z"),
    MethodRow::Abstract("add", "(Ljava/lang/Object;)Z"),
    MethodRow::Abstract("remove", "(Ljava/lang/Object;)Z"),
    MethodRow::Abstract("clear", "()V"),
];

const LIST_METHODS: [MethodRow; 5] = [
    MethodRow::Abstract("get", "(I)Ljava/lang/Object;"),
    MethodRow::Abstract("set", "(ILjava/lang/Object;)Ljava/lang/Object;"),
    MethodRow::Abstract("add", "(ILjava/lang/Object;)V"),
    MethodRow::Abstract("remove", "(I)Ljava/lang/Object;"),
    MethodRow::Abstract("indexOf", "(Ljava/lang/Object;)I"),
];

const MAP_METHODS: [MethodRow; 9] = [
    MethodRow::Abstract("size", "()I"),
    MethodRow::Abstract("isEmpty", "()Z"),
    MethodRow::Abstract("get", "(Ljava/lang/Object;)Ljava/lang/Object;"),
    MethodRow::Abstract(
        "put",
        "(Ljava/lang/Object;Ljava/lang/Object;)Ljava/lang/Object;",
    ),
    MethodRow::Abstract("containsKey", "(Ljava/lang/Object;)Z"),
    MethodRow::Abstract("remove", "(Ljava/lang/Object;)Ljava/lang/Object;"),
    MethodRow::Abstract("clear", "()V"),
    MethodRow::Abstract("keySet", "()Ljava/util/Set;"),
    MethodRow::Abstract("values", "()Ljava/util/Collection;"),
];

pub static COLLECTION_INTERFACES: [ClassRow; 5] = [
    ClassRow::Interface("java/util/Iterator", &[], &ITERATOR_METHODS),
    ClassRow::Interface(
        "java/util/Collection",
        &["java/lang/Iterable"],
        &COLLECTION_METHODS,
    ),
    ClassRow::Interface("java/util/List", &["java/util/Collection"], &LIST_METHODS),
    ClassRow::Interface("java/util/Set", &["java/util/Collection"], &[]),
    ClassRow::Interface("java/util/Map", &[], &MAP_METHODS),
];
