//! The texts of the suite, in the assembler's language.

ghost use Rattle.std.specs.Prelude.{◌≡◌, ◌≤◌, string_bytes, IfOk};
ghost use Rattle.suite_generator.specs.Texts.{class_text, test_text};

use class_model::Memory;
use std::alloc::Global;

/// The text of the class of this number.
pub fn class_text(alloc: Global, number: u32) -> Result<String, Memory>
    ensures { IfOk result (λ text. string_bytes text ≡ class_text number) }
{
    let text = format!(in alloc;
        "class gen/C{number} super java/lang/Object flags 33 major 52\n\
        method 9 f (I)I stack 2 locals 1\n\
        line 10\n\
        iload_0\n\
        sipush {number}\n\
        iadd\n\
        ireturn\n\
        method 9 g (I)I stack 1 locals 1\n\
        line 20\n\
        iload_0\n\
        ineg\n\
        ireturn\n\
        end\n"
    )?;
    Ok(text)
}

/// The text of the test class of this number.
pub fn test_text(alloc: Global, number: u32) -> Result<String, Memory>
    requires { number ≤ 200 }
    ensures { IfOk result (λ text. string_bytes text ≡ test_text number) }
{
    let sum = 3 + number;
    let text = format!(in alloc;
        "class gen/T{number} super java/lang/Object flags 33 major 52\n\
        method 1 <init> ()V stack 1 locals 1\n\
        aload_0\n\
        invokespecial java/lang/Object.<init> ()V\n\
        return\n\
        method 1 t ()V stack 4 locals 1\n\
        ldc2_w {sum}\n\
        iconst_3\n\
        invokestatic gen/C{number}.f (I)I\n\
        i2l\n\
        invokestatic org/junit/Assert.assertEquals (JJ)V\n\
        return\n\
        note Lorg/junit/Test;\n\
        end\n"
    )?;
    Ok(text)
}
