//! Methods that a rule refuses.

use crate::small_methods::first_other;
use std::alloc::Global;
use std::test::Fail;

// Lines that are refused, the rule, and the instruction.
const FIRST_REFUSED: [(&str, u8, u32); 21] = [
    ("method 265 f ()V", 1, 0),
    ("method 1 f ()V", 1, 0),
    ("method 1025 f ()V stack 0 locals 1|return", 1, 0),
    (
        "method 9 f ()V stack 0 locals 0|return|method 9 f ()V stack 0 locals 0|return",
        1,
        0,
    ),
    ("method 9 f (I)Z stack 1 locals 0|iload_0|ireturn", 2, 0),
    ("method 9 f (J)V stack 0 locals 1|return", 2, 0),
    ("method 1 f ()V stack 0 locals 0|return", 2, 0),
    (
        "method 9 f ()V stack 0 locals 0|goto L|L:|frame chop 1|return",
        3,
        1,
    ),
    (
        "method 9 f (J)V stack 0 locals 2|goto L|L:|frame chop 2|return",
        3,
        1,
    ),
    (
        "method 9 f ()V stack 0 locals 1|goto L|L:|frame append int int|return",
        3,
        1,
    ),
    (
        "method 9 f ()V stack 0 locals 1|goto L|L:|frame append long|return",
        3,
        1,
    ),
    (
        "method 9 f ()V stack 0 locals 0|goto L|L:|frame one int|return",
        3,
        1,
    ),
    (
        "method 9 f ()V stack 0 locals 1|goto L|L:|frame append uthis|return",
        3,
        1,
    ),
    (
        "method 9 f ()V stack 0 locals 1|goto L|L:|frame append new L|return",
        3,
        1,
    ),
    (
        "method 9 f ()V stack 0 locals 0|pop|L:|frame chop 1|return",
        3,
        1,
    ),
    (
        "method 9 f ()V stack 0 locals 0|goto L|nop|L:|frame same|return",
        4,
        1,
    ),
    ("method 9 f ()V stack 0 locals 0|nop", 4, 0),
    ("method 9 f ()V stack 0 locals 0|return|nop", 4, 1),
    (
        "method 9 f ()V stack 1 locals 1|iconst_0|istore_0|frame append long|return",
        3,
        2,
    ),
    (
        "method 9 f ()V stack 1 locals 2|iconst_0|istore_0|frame append long|return",
        5,
        2,
    ),
    (
        "method 9 f ()V stack 1 locals 0|iconst_0|frame same|return",
        5,
        1,
    ),
];

const SECOND_REFUSED: [(&str, u8, u32); 21] = [
    (
        "method 1 <init> ()V stack 1 locals 1|nop|frame full top /|return",
        5,
        1,
    ),
    (
        "method 9 f (LUpper;)V stack 0 locals 1|frame full Lower /|return",
        5,
        0,
    ),
    (
        "method 9 f (LUpper;)V stack 0 locals 1|frame full Absent /|return",
        5,
        0,
    ),
    (
        "method 9 f ([I)V stack 0 locals 1|frame full Face /|return",
        5,
        0,
    ),
    ("method 9 f ()V stack 1 locals 0|iload_0|return", 6, 0),
    ("method 9 f (J)V stack 1 locals 2|iload_0|return", 6, 0),
    ("method 9 f (I)V stack 1 locals 1|aload_0|return", 6, 0),
    ("method 9 f (J)V stack 2 locals 2|lload_1|return", 6, 0),
    (
        "method 9 f ()V stack 1 locals 0|iconst_0|istore_0|return",
        6,
        1,
    ),
    (
        "method 9 f ()V stack 2 locals 1|lconst_0|lstore_0|return",
        6,
        1,
    ),
    (
        "method 9 f (J)V stack 2 locals 2|iconst_0|istore_1|lload_0|return",
        6,
        2,
    ),
    ("method 9 f (LA;)V stack 0 locals 1|iinc 0 1|return", 6, 0),
    (
        "method 9 f ()V stack 1 locals 1|L:|frame full top /|N:|new A|astore_0|N2:|new A|aload_0|goto L",
        8,
        3,
    ),
    ("method 9 f ()V stack 1 locals 0|iadd|return", 7, 0),
    (
        "method 9 f ()V stack 4 locals 0|lconst_0|iconst_0|iadd|return",
        7,
        2,
    ),
    ("method 9 f ()V stack 2 locals 0|lconst_0|pop|return", 7, 1),
    ("method 9 f ()V stack 2 locals 0|iconst_0|pop2|return", 7, 1),
    (
        "method 9 f (LUpper;)V stack 1 locals 1|aload_0|getfield A.x I|return",
        7,
        1,
    ),
    (
        "method 9 f ([I)V stack 2 locals 1|aload_0|iconst_0|aaload|return",
        7,
        2,
    ),
    (
        "method 9 f (I)V stack 1 locals 1|iload_0|arraylength|return",
        7,
        1,
    ),
    (
        "method 9 f (LUpper;)V stack 1 locals 1|aload_0|athrow",
        7,
        1,
    ),
];

const THIRD_REFUSED: [(&str, u8, u32); 21] = [
    (
        "method 9 f ()V stack 1 locals 0|iconst_0|invokestatic A.g (II)V|return",
        7,
        1,
    ),
    (
        "method 1 <init> ()V stack 2 locals 1|aload_0|iconst_1|putfield Upper.x I|return",
        7,
        2,
    ),
    (
        "method 9 f ()V stack 1 locals 0|new A|invokevirtual A.g ()V|return",
        7,
        1,
    ),
    (
        "method 9 f (I)Z stack 0 locals 1|iload_0|ifge L|iconst_1|ireturn|L:|frame same|iconst_0|ireturn",
        8,
        0,
    ),
    (
        "method 9 f ()V stack 1 locals 0|iconst_0|iconst_0|return",
        8,
        1,
    ),
    ("method 9 f ()V stack 1 locals 0|lconst_0|return", 8, 0),
    ("method 9 f ()V stack 1 locals 0|iconst_0|dup|return", 8, 1),
    (
        "method 9 f (I)Z stack 1 locals 1|iload_0|ifge L|iconst_1|ireturn|L:|iconst_0|ireturn",
        9,
        1,
    ),
    (
        "method 9 f ()V stack 0 locals 1|goto L|L:|frame append int|return",
        9,
        0,
    ),
    (
        "method 9 f ()V stack 2 locals 0|lconst_0|goto L|L:|frame full / top top|return",
        9,
        1,
    ),
    (
        "method 9 f (I)V stack 1 locals 1|iload_0|tableswitch 0 D L|D:|frame same|return|L:|return",
        9,
        1,
    ),
    (
        "method 9 f ()V stack 1 locals 0|S:|nop|E:|return|H:|return|handler S E H any",
        10,
        0,
    ),
    (
        "method 9 f ()V stack 1 locals 0|S:|nop|E:|return|H:|frame one Upper|return|handler S E H Upper",
        10,
        0,
    ),
    (
        "method 9 f ()V stack 1 locals 1|S:|iconst_0|istore_0|E:|return|H:|frame full int / java/lang/Throwable|pop|return|handler S E H any",
        10,
        0,
    ),
    (
        "method 9 f ()V stack 1 locals 0|S:|nop|E:|return|H:|frame one java/lang/String|return|handler S E H any",
        10,
        0,
    ),
    (
        "method 9 f (I)Z stack 1 locals 1|iload_0|ifge L|iconst_1|ireturn|L:|frame same|iconst_0|return",
        11,
        5,
    ),
    ("method 9 f ()V stack 1 locals 0|iconst_0|ireturn", 11, 1),
    (
        "method 9 f (LUpper;)LLower; stack 1 locals 1|aload_0|areturn",
        11,
        1,
    ),
    ("method 1 <init> ()V stack 0 locals 1|return", 11, 0),
    (
        "method 1 f ()V stack 1 locals 1|aload_0|invokevirtual A.<init> ()V|return",
        12,
        1,
    ),
    (
        "method 1 f ()V stack 1 locals 1|aload_0|invokespecial A.<init> ()V|return",
        12,
        1,
    ),
];

fn other_of_first(alloc: Global) -> Result<&'static str, Fail> {
    first_other(alloc, &FIRST_REFUSED)
}

#[test]
fn first_are_refused(rt: HostRuntime) -> Result<(), Fail> {
    assert_eq!(rt; other_of_first(rt.alloc())?, "");
    Ok(())
}

fn other_of_second(alloc: Global) -> Result<&'static str, Fail> {
    first_other(alloc, &SECOND_REFUSED)
}

#[test]
fn second_are_refused(rt: HostRuntime) -> Result<(), Fail> {
    assert_eq!(rt; other_of_second(rt.alloc())?, "");
    Ok(())
}

fn other_of_third(alloc: Global) -> Result<&'static str, Fail> {
    first_other(alloc, &THIRD_REFUSED)
}

#[test]
fn third_are_refused(rt: HostRuntime) -> Result<(), Fail> {
    assert_eq!(rt; other_of_third(rt.alloc())?, "");
    Ok(())
}
