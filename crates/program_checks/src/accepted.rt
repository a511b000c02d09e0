//! Methods that are accepted.

use crate::small_methods::first_refused;
use std::alloc::Global;
use std::test::Fail;

// Lines that are accepted. A table of more than some fifty cases can't be proved.
const FIRST_ACCEPTED: [&str; 21] = [
    // the first example, and what stands around it
    "method 9 f (I)Z stack 1 locals 1|iload_0|ifge L|iconst_1|ireturn|L:|frame same|iconst_0|ireturn",
    "method 1025 f ()V",
    "method 9 f ()V stack 0 locals 0|return|method 9 f (I)V stack 0 locals 1|return",
    "method 9 f (J)V stack 0 locals 2|return",
    "method 1 f ()V stack 0 locals 1|return",
    // stated frames
    "method 9 f ()V stack 0 locals 0|L:|frame same|goto L",
    "method 9 f (IJ)V stack 0 locals 3|goto L|L:|frame chop 2|return",
    "method 9 f ()V stack 1 locals 1|iconst_0|istore_0|frame append int|return",
    "method 9 f ()V stack 1 locals 0|iconst_0|frame one int|pop|return",
    "method 9 f ()V stack 2 locals 2|lconst_0|lstore_0|goto L|L:|frame full top top /|return",
    "method 9 f ()V stack 0 locals 0|goto L|L:|frame same|return",
    "method 9 f (LLower;)V stack 0 locals 1|frame full Upper /|return",
    "method 9 f (LUpper;)V stack 0 locals 1|frame full Far /|return",
    "method 9 f (LAbsent;)V stack 0 locals 1|frame full Lower /|return",
    "method 9 f ([[I)V stack 0 locals 1|frame full [Ljava/lang/Object; /|return",
    // locals
    "method 9 f (J)J stack 2 locals 2|lload_0|lreturn",
    "method 9 f (I)V stack 0 locals 1|iinc 0 1|return",
    "method 9 f (J)V stack 1 locals 2|iconst_0|istore_1|iload_1|istore_0|return",
    // the stack
    "method 9 f (IJ)J stack 4 locals 3|iload_0|i2l|lload_1|ladd|lreturn",
    "method 9 f ()V stack 5 locals 0|iconst_0|lconst_0|dup2_x1|pop2|pop|pop2|return",
    "method 9 f ([I)I stack 2 locals 1|aload_0|iconst_0|iaload|ireturn",
];

const SECOND_ACCEPTED: [&str; 21] = [
    "method 9 f ([LLower;)LUpper; stack 2 locals 1|aload_0|iconst_0|aaload|areturn",
    "method 9 f ()I stack 2 locals 0|aconst_null|iconst_0|aaload|arraylength|ireturn",
    "method 9 f ()[LA; stack 1 locals 1|aconst_null|checkcast [LA;|astore_0|aload_0|invokevirtual [LA;.clone ()Ljava/lang/Object;|checkcast [LA;|areturn",
    "method 9 f ()V stack 1 locals 0|aconst_null|athrow",
    "method 9 f ()Ljava/lang/String; stack 1 locals 0|ldc \"text\"|areturn",
    "method 9 f ()Ljava/lang/Class; stack 1 locals 0|ldc class Absent|areturn",
    "method 9 f (LLower;)V stack 2 locals 1|aload_0|iconst_1|invokestatic A.g (LUpper;I)V|return",
    "method 9 f ()[[I stack 2 locals 0|iconst_1|iconst_1|multianewarray [[I 2|areturn",
    "method 9 f ()J stack 2 locals 0|getstatic A.s J|lreturn",
    "method 9 f (I)I stack 1 locals 1|iload_0|lookupswitch D 1:L|L:|frame same|iconst_1|ireturn|D:|frame same|iconst_0|ireturn",
    // handlers
    "method 9 f ()V stack 1 locals 0|S:|nop|E:|return|H:|frame one java/lang/Throwable|pop|return|handler S E H any",
    "method 9 f ()V stack 1 locals 0|S:|nop|E:|return|H:|frame one Absent|pop|return|handler S E H Absent",
    "method 9 f ()V stack 1 locals 0|goto M|S:|frame one java/lang/Throwable|pop|E:|return|M:|frame same|return|handler S E S any",
    "method 9 f ()V stack 1 locals 1|S:|iconst_0|istore_0|E:|return|H:|frame full top / java/lang/Throwable|pop|return|handler S E H any",
    // new objects, and calls of `<init>`
    "method 1 <init> ()V stack 1 locals 1|aload_0|invokespecial Upper.<init> ()V|return",
    "method 1 <init> (I)V stack 1 locals 2|aload_0|invokespecial A.<init> ()V|return",
    "method 1 <init> ()V stack 2 locals 1|aload_0|iconst_1|putfield A.x I|aload_0|invokespecial Upper.<init> ()V|return",
    "method 1 <init> (I)V stack 2 locals 2|aload_0|iload_1|ifge L|nop|L:|frame full uthis int / uthis|invokespecial Upper.<init> ()V|return",
    "method 9 f ()LUpper; stack 2 locals 0|new Lower|dup|invokespecial Lower.<init> ()V|areturn",
    "method 9 f ()V stack 1 locals 1|L:|frame full top /|N:|new A|astore_0|goto L",
    "method 9 f (I)V stack 3 locals 1|N:|new A|dup|iload_0|ifge L|nop|L:|frame full int / new N new N|invokespecial A.<init> ()V|pop|return",
];

const THIRD_ACCEPTED: [&str; 21] = [
    "method 1 f ()V stack 1 locals 1|aload_0|invokespecial java/lang/Object.g ()V|return",
    "method 1 f ()V stack 1 locals 1|aload_0|invokespecial interface Far.g ()V|return",
    "method 9 f ()V stack 0 locals 0|return|frame same|return",
    // fields, arrays, objects
    "method 9 f (LA;)I stack 1 locals 1|aload_0|getfield A.x I|ireturn",
    "method 9 f (LA;I)V stack 2 locals 2|aload_0|iload_1|putfield A.x I|return",
    "method 9 f ()V stack 2 locals 0|lconst_0|putstatic A.s J|return",
    "method 9 f (LUpper;)V stack 1 locals 1|aload_0|invokeinterface Far.g ()V|return",
    "method 9 f ()Z stack 1 locals 0|aconst_null|instanceof [I|ireturn",
    "method 9 f ()[J stack 1 locals 0|iconst_1|newarray long|areturn",
    "method 9 f ()[[LA; stack 1 locals 0|iconst_1|anewarray [LA;|areturn",
    "method 9 f ([B)V stack 3 locals 1|aload_0|iconst_0|iconst_1|bastore|return",
    "method 9 f ([Z)V stack 3 locals 1|aload_0|iconst_0|iconst_1|bastore|return",
    "method 9 f ([J)V stack 4 locals 1|aload_0|iconst_0|lconst_1|lastore|return",
    "method 9 f ([LUpper;)V stack 3 locals 1|aload_0|iconst_0|aconst_null|aastore|return",
    "method 9 f (LA;)V stack 1 locals 1|aload_0|monitorenter|aload_0|monitorexit|return",
    // comparisons and conversions
    "method 9 f (JJ)I stack 4 locals 4|lload_0|lload_2|lcmp|ireturn",
    "method 9 f (II)V stack 2 locals 2|iload_0|iload_1|if_icmplt L|nop|L:|frame same|return",
    "method 9 f (LA;LA;)V stack 2 locals 2|aload_0|aload_1|if_acmpne L|nop|L:|frame same|return",
    "method 9 f (LA;)V stack 1 locals 1|aload_0|ifnull L|nop|L:|frame same|return",
    "method 9 f (I)C stack 1 locals 1|iload_0|i2c|ireturn",
    "method 9 f ()J stack 2 locals 0|ldc2_w 5|lreturn",
];

fn other_of_first(alloc: Global) -> Result<&'static str, Fail> {
    first_refused(alloc, &FIRST_ACCEPTED)
}

#[test]
fn first_are_accepted(rt: HostRuntime) -> Result<(), Fail> {
    assert_eq!(rt; other_of_first(rt.alloc())?, "");
    Ok(())
}

fn other_of_second(alloc: Global) -> Result<&'static str, Fail> {
    first_refused(alloc, &SECOND_ACCEPTED)
}

#[test]
fn second_are_accepted(rt: HostRuntime) -> Result<(), Fail> {
    assert_eq!(rt; other_of_second(rt.alloc())?, "");
    Ok(())
}

fn other_of_third(alloc: Global) -> Result<&'static str, Fail> {
    first_refused(alloc, &THIRD_ACCEPTED)
}

#[test]
fn third_are_accepted(rt: HostRuntime) -> Result<(), Fail> {
    assert_eq!(rt; other_of_third(rt.alloc())?, "");
    Ok(())
}
