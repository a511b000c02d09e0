//! Throwable and the classes below it.

use crate::rows::{ClassRow, MethodRow};

const THROWABLE_METHODS: [MethodRow; 7] = [
    MethodRow::Native(0, "<init>", "()V"),
    MethodRow::Native(13, "<init>", "(Ljava/lang/String;)V"),
    MethodRow::Native(15, "<init>", "(Ljava/lang/String;Ljava/lang/Throwable;)V"),
    MethodRow::Native(14, "<init>", "(Ljava/lang/Throwable;)V"),
    MethodRow::Native(11, "getMessage", "()Ljava/lang/String;"),
    MethodRow::Native(12, "getCause", "()Ljava/lang/Throwable;"),
    MethodRow::Native(0, "addSuppressed", "(Ljava/lang/Throwable;)V"),
];

const INITIALIZERS: [MethodRow; 4] = [
    MethodRow::Native(0, "<init>", "()V"),
    MethodRow::Native(13, "<init>", "(Ljava/lang/String;)V"),
    MethodRow::Native(15, "<init>", "(Ljava/lang/String;Ljava/lang/Throwable;)V"),
    MethodRow::Native(14, "<init>", "(Ljava/lang/Throwable;)V"),
];

pub static THROWABLES: [ClassRow; 6] = [
    ClassRow::WithFields(
        "java/lang/Throwable",
        "java/lang/Object",
        &[
            ("message", "Ljava/lang/String;"),
            ("cause", "Ljava/lang/Throwable;"),
        ],
        &THROWABLE_METHODS,
    ),
    ClassRow::Class(
        "java/lang/Exception",
        "java/lang/Throwable",
        &[],
        &INITIALIZERS,
    ),
    ClassRow::Class(
        "java/lang/RuntimeException",
        "java/lang/Exception",
        &[],
        &INITIALIZERS,
    ),
    ClassRow::Class("java/lang/Error", "java/lang/Throwable", &[], &INITIALIZERS),
    ClassRow::Class(
        "java/lang/LinkageError",
        "java/lang/Error",
        &[],
        &INITIALIZERS,
    ),
    ClassRow::AbstractClass(
        "java/lang/VirtualMachineError",
        "java/lang/Error",
        &[],
        &INITIALIZERS,
    ),
];

pub static ERRORS: [ClassRow; 9] = [
    ClassRow::Class(
        "java/lang/AssertionError",
        "java/lang/Error",
        &[],
        &INITIALIZERS,
    ),
    ClassRow::Class(
        "java/lang/NoClassDefFoundError",
        "java/lang/LinkageError",
        &[],
        &INITIALIZERS,
    ),
    ClassRow::Class(
        "java/lang/ExceptionInInitializerError",
        "java/lang/LinkageError",
        &[],
        &INITIALIZERS,
    ),
    ClassRow::Class(
        "java/lang/IncompatibleClassChangeError",
        "java/lang/LinkageError",
        &[],
        &INITIALIZERS,
    ),
    ClassRow::Class(
        "java/lang/NoSuchFieldError",
        "java/lang/IncompatibleClassChangeError",
        &[],
        &INITIALIZERS,
    ),
    ClassRow::Class(
        "java/lang/NoSuchMethodError",
        "java/lang/IncompatibleClassChangeError",
        &[],
        &INITIALIZERS,
    ),
    ClassRow::Class(
        "java/lang/AbstractMethodError",
        "java/lang/IncompatibleClassChangeError",
        &[],
        &INITIALIZERS,
    ),
    ClassRow::Class(
        "java/lang/InstantiationError",
        "java/lang/IncompatibleClassChangeError",
        &[],
        &INITIALIZERS,
    ),
    ClassRow::Class(
        "java/lang/StackOverflowError",
        "java/lang/VirtualMachineError",
        &[],
        &INITIALIZERS,
    ),
];

pub static MACHINE_EXCEPTIONS: [ClassRow; 8] = [
    ClassRow::Class(
        "java/lang/ArithmeticException",
        "java/lang/RuntimeException",
        &[],
        &INITIALIZERS,
    ),
    ClassRow::Class(
        "java/lang/ArrayStoreException",
        "java/lang/RuntimeException",
        &[],
        &INITIALIZERS,
    ),
    ClassRow::Class(
        "java/lang/ClassCastException",
        "java/lang/RuntimeException",
        &[],
        &INITIALIZERS,
    ),
    ClassRow::Class(
        "java/lang/IllegalMonitorStateException",
        "java/lang/RuntimeException",
        &[],
        &INITIALIZERS,
    ),
    ClassRow::Class(
        "java/lang/IndexOutOfBoundsException",
        "java/lang/RuntimeException",
        &[],
        &INITIALIZERS,
    ),
    ClassRow::Class(
        "java/lang/ArrayIndexOutOfBoundsException",
        "java/lang/IndexOutOfBoundsException",
        &[],
        &INITIALIZERS,
    ),
    ClassRow::Class(
        "java/lang/NegativeArraySizeException",
        "java/lang/RuntimeException",
        &[],
        &INITIALIZERS,
    ),
    ClassRow::Class(
        "java/lang/NullPointerException",
        "java/lang/RuntimeException",
        &[],
        &INITIALIZERS,
    ),
];

pub static LIBRARY_EXCEPTIONS: [ClassRow; 6] = [
    ClassRow::Class(
        "java/lang/IllegalArgumentException",
        "java/lang/RuntimeException",
        &[],
        &INITIALIZERS,
    ),
    ClassRow::Class(
        "java/lang/NumberFormatException",
        "java/lang/IllegalArgumentException",
        &[],
        &INITIALIZERS,
    ),
    ClassRow::Class(
        "java/lang/IllegalStateException",
        "java/lang/RuntimeException",
        &[],
        &INITIALIZERS,
    ),
    ClassRow::Class(
        "java/lang/StringIndexOutOfBoundsException",
        "java/lang/IndexOutOfBoundsException",
        &[],
        &INITIALIZERS,
    ),
    ClassRow::Class(
        "java/util/NoSuchElementException",
        "java/lang/RuntimeException",
        &[],
        &INITIALIZERS,
    ),
    ClassRow::Class(
        "java/lang/UnsupportedOperationException",
        "java/lang/RuntimeException",
        &[],
        &INITIALIZERS,
    ),
];
