//! Further methods that a rule refuses: calls, fields, handlers, what `new` gives.

use crate::small_methods::first_other;
use std::alloc::Global;
use std::test::Fail;

// Lines that are refused, the rule, and the instruction.
const FOURTH_REFUSED: [(&str, u8, u32); 21] = [
    (
        "method 9 f ()V stack 1 locals 0|new A|invokespecial Upper.<init> ()V|return",
        12,
        1,
    ),
    (
        "method 1 <init> ()V stack 1 locals 1|aload_0|invokespecial java/lang/Object.<init> ()V|return",
        12,
        1,
    ),
    (
        "method 9 f ()V stack 0 locals 0|invokestatic A.<clinit> ()V|return",
        12,
        0,
    ),
    (
        "method 1 f ()V stack 1 locals 1|aconst_null|invokespecial Lower.g ()V|return",
        12,
        1,
    ),
    (
        "method 1 f ()V stack 1 locals 1|aload_0|invokespecial interface Face.g ()V|return",
        12,
        1,
    ),
    ("method 9 f ()V stack 1 locals 0|new [I|return", 13, 0),
    (
        "method 9 f ()V stack 2 locals 0|goto M|N:|frame full / new N|new A|return|M:|frame same|return",
        13,
        1,
    ),
    (
        "method 9 f ()V stack 2 locals 0|iconst_1|iconst_1|multianewarray [I 2|return",
        13,
        2,
    ),
    (
        "method 9 f (J)V stack 2 locals 2|lload_0|putstatic A.x I|return",
        7,
        1,
    ),
    (
        "method 9 f ()I stack 2 locals 0|getstatic A.s J|ireturn",
        7,
        1,
    ),
    (
        "method 9 f ()I stack 1 locals 0|getstatic A.s J|ireturn",
        8,
        0,
    ),
    (
        "method 9 f (LUpper;)V stack 1 locals 1|aload_0|invokevirtual Lower.g ()V|return",
        7,
        1,
    ),
    (
        "method 9 f ([B)V stack 4 locals 1|aload_0|iconst_0|lconst_1|bastore|return",
        7,
        3,
    ),
    (
        "method 9 f ([J)V stack 2 locals 1|aload_0|iconst_0|iaload|return",
        7,
        2,
    ),
    (
        "method 9 f (I)V stack 1 locals 1|iload_0|monitorenter|return",
        7,
        1,
    ),
    (
        "method 9 f (JI)I stack 3 locals 3|lload_0|iload_2|lcmp|ireturn",
        7,
        2,
    ),
    (
        "method 9 f (I)V stack 1 locals 1|iload_0|ifnull L|nop|L:|frame same|return",
        7,
        1,
    ),
    (
        "method 9 f (LA;I)V stack 2 locals 2|aload_0|iload_1|if_icmplt L|nop|L:|frame same|return",
        7,
        2,
    ),
    (
        "method 9 f ()V stack 1 locals 0|iconst_0|checkcast A|return",
        7,
        1,
    ),
    (
        "method 9 f ()V stack 1 locals 0|aconst_null|newarray int|return",
        7,
        1,
    ),
    (
        "method 9 f (J)V stack 2 locals 2|lload_0|l2i|l2i|return",
        7,
        2,
    ),
];

const FIFTH_REFUSED: [(&str, u8, u32); 18] = [
    (
        "method 9 f (I)V stack 2 locals 1|iload_0|dup_x1|return",
        7,
        1,
    ),
    (
        "method 9 f (II)V stack 2 locals 2|iload_0|iload_1|dup_x1|return",
        8,
        2,
    ),
    (
        "method 9 f (IJ)V stack 3 locals 3|iload_0|lload_1|swap|return",
        7,
        2,
    ),
    (
        "method 9 f ()Ljava/lang/String; stack 1 locals 0|ldc class A|areturn",
        11,
        1,
    ),
    ("method 9 f ()V stack 1 locals 0|iconst_0|areturn", 7, 1),
    ("method 9 f ()I stack 1 locals 0|aconst_null|areturn", 11, 1),
    ("method 9 f ()J stack 1 locals 0|iconst_0|ireturn", 11, 1),
    (
        "method 9 f (I)V stack 1 locals 2|iload_0|lookupswitch D 1:L|D:|frame same|return|L:|frame append int|return",
        9,
        1,
    ),
    (
        "method 9 f ()V stack 1 locals 1|nop|S:|iconst_0|E:|istore_0|return|H:|frame one Upper|pop|return|handler S E H Upper",
        10,
        1,
    ),
    (
        "method 9 f ()V stack 1 locals 0|S:|pop|E:|return|H:|return|handler S E H any",
        7,
        0,
    ),
    (
        "method 9 f ()I stack 1 locals 0|S:|return|E:|H:|frame one Upper|athrow|handler S E H Upper",
        10,
        0,
    ),
    (
        "method 1 <init> ()V stack 1 locals 1|aload_0|invokevirtual A.g ()V|return",
        7,
        1,
    ),
    ("method 1 <init> ()V stack 1 locals 1|aload_0|areturn", 7, 1),
    (
        "method 1 <init> ()V stack 2 locals 1|aload_0|dup|invokespecial Upper.<init> ()V|invokespecial Upper.<init> ()V|return",
        12,
        3,
    ),
    (
        "method 9 f ()V stack 2 locals 0|new A|dup|invokespecial A.<init> ()V|invokespecial A.<init> ()V|return",
        12,
        3,
    ),
    (
        "method 9 f ()V stack 1 locals 0|iconst_1|multianewarray A 1|return",
        13,
        1,
    ),
    (
        "method 9 f ()V stack 1 locals 0|iconst_1|multianewarray [[I 2|return",
        7,
        1,
    ),
    (
        "method 9 f ()V stack 0 locals 0|invokestatic A.<init> ()V|return",
        12,
        0,
    ),
];

fn other_of_fourth(alloc: Global) -> Result<&'static str, Fail> {
    first_other(alloc, &FOURTH_REFUSED)
}

#[test]
fn fourth_are_refused(rt: HostRuntime) -> Result<(), Fail> {
    assert_eq!(rt; other_of_fourth(rt.alloc())?, "");
    Ok(())
}

fn other_of_fifth(alloc: Global) -> Result<&'static str, Fail> {
    first_other(alloc, &FIFTH_REFUSED)
}

#[test]
fn fifth_are_refused(rt: HostRuntime) -> Result<(), Fail> {
    assert_eq!(rt; other_of_fifth(rt.alloc())?, "");
    Ok(())
}
