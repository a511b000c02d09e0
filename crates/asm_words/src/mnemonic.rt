//! Opcodes by their mnemonics (JVMS 6.5, 7).

ghost use Rattle.std.specs.Prelude.{◌≡◌};
ghost use Rattle.asm_words.specs.Mnemonics.{opcode_from_nop_on, opcode_from_sipush_on, opcode_from_lload_1_on, opcode_from_saload_on, opcode_from_astore_0_on, opcode_from_dup_on, opcode_from_lmul_on, opcode_of};

use crate::later_mnemonic::opcode_from_lmul_on;
use crate::says;
use class_model::Name;

/// The opcode of a mnemonic. Each function has a part of the table, and the next one the rest.
pub fn opcode_of(word: &Name) -> Option<u8>
    ensures { result ≡ opcode_of word.now }
{
    opcode_from_nop_on(word)
}

#[tactic(auto, unfolding(crate::specs::Mnemonics::opcode_from_nop_on))]
fn opcode_from_nop_on(word: &Name) -> Option<u8>
    ensures { result ≡ opcode_from_nop_on word.now }
{
    if says(word, "nop") {
        Some(0x00)
    } else if says(word, "aconst_null") {
        Some(0x01)
    } else if says(word, "iconst_m1") {
        Some(0x02)
    } else if says(word, "iconst_0") {
        Some(0x03)
    } else if says(word, "iconst_1") {
        Some(0x04)
    } else if says(word, "iconst_2") {
        Some(0x05)
    } else if says(word, "iconst_3") {
        Some(0x06)
    } else if says(word, "iconst_4") {
        Some(0x07)
    } else if says(word, "iconst_5") {
        Some(0x08)
    } else if says(word, "lconst_0") {
        Some(0x09)
    } else if says(word, "lconst_1") {
        Some(0x0a)
    } else if says(word, "bipush") {
        Some(0x10)
    } else {
        opcode_from_sipush_on(word)
    }
}

#[tactic(auto, unfolding(crate::specs::Mnemonics::opcode_from_sipush_on))]
fn opcode_from_sipush_on(word: &Name) -> Option<u8>
    ensures { result ≡ opcode_from_sipush_on word.now }
{
    if says(word, "sipush") {
        Some(0x11)
    } else if says(word, "ldc") {
        Some(0x12)
    } else if says(word, "ldc_w") {
        Some(0x13)
    } else if says(word, "ldc2_w") {
        Some(0x14)
    } else if says(word, "iload") {
        Some(0x15)
    } else if says(word, "lload") {
        Some(0x16)
    } else if says(word, "aload") {
        Some(0x19)
    } else if says(word, "iload_0") {
        Some(0x1a)
    } else if says(word, "iload_1") {
        Some(0x1b)
    } else if says(word, "iload_2") {
        Some(0x1c)
    } else if says(word, "iload_3") {
        Some(0x1d)
    } else if says(word, "lload_0") {
        Some(0x1e)
    } else {
        opcode_from_lload_1_on(word)
    }
}

#[tactic(auto, unfolding(crate::specs::Mnemonics::opcode_from_lload_1_on))]
fn opcode_from_lload_1_on(word: &Name) -> Option<u8>
    ensures { result ≡ opcode_from_lload_1_on word.now }
{
    if says(word, "lload_1") {
        Some(0x1f)
    } else if says(word, "lload_2") {
        Some(0x20)
    } else if says(word, "lload_3") {
        Some(0x21)
    } else if says(word, "aload_0") {
        Some(0x2a)
    } else if says(word, "aload_1") {
        Some(0x2b)
    } else if says(word, "aload_2") {
        Some(0x2c)
    } else if says(word, "aload_3") {
        Some(0x2d)
    } else if says(word, "iaload") {
        Some(0x2e)
    } else if says(word, "laload") {
        Some(0x2f)
    } else if says(word, "aaload") {
        Some(0x32)
    } else if says(word, "baload") {
        Some(0x33)
    } else if says(word, "caload") {
        Some(0x34)
    } else {
        opcode_from_saload_on(word)
    }
}

#[tactic(auto, unfolding(crate::specs::Mnemonics::opcode_from_saload_on))]
fn opcode_from_saload_on(word: &Name) -> Option<u8>
    ensures { result ≡ opcode_from_saload_on word.now }
{
    if says(word, "saload") {
        Some(0x35)
    } else if says(word, "istore") {
        Some(0x36)
    } else if says(word, "lstore") {
        Some(0x37)
    } else if says(word, "astore") {
        Some(0x3a)
    } else if says(word, "istore_0") {
        Some(0x3b)
    } else if says(word, "istore_1") {
        Some(0x3c)
    } else if says(word, "istore_2") {
        Some(0x3d)
    } else if says(word, "istore_3") {
        Some(0x3e)
    } else if says(word, "lstore_0") {
        Some(0x3f)
    } else if says(word, "lstore_1") {
        Some(0x40)
    } else if says(word, "lstore_2") {
        Some(0x41)
    } else if says(word, "lstore_3") {
        Some(0x42)
    } else {
        opcode_from_astore_0_on(word)
    }
}

#[tactic(auto, unfolding(crate::specs::Mnemonics::opcode_from_astore_0_on))]
fn opcode_from_astore_0_on(word: &Name) -> Option<u8>
    ensures { result ≡ opcode_from_astore_0_on word.now }
{
    if says(word, "astore_0") {
        Some(0x4b)
    } else if says(word, "astore_1") {
        Some(0x4c)
    } else if says(word, "astore_2") {
        Some(0x4d)
    } else if says(word, "astore_3") {
        Some(0x4e)
    } else if says(word, "iastore") {
        Some(0x4f)
    } else if says(word, "lastore") {
        Some(0x50)
    } else if says(word, "aastore") {
        Some(0x53)
    } else if says(word, "bastore") {
        Some(0x54)
    } else if says(word, "castore") {
        Some(0x55)
    } else if says(word, "sastore") {
        Some(0x56)
    } else if says(word, "pop") {
        Some(0x57)
    } else if says(word, "pop2") {
        Some(0x58)
    } else {
        opcode_from_dup_on(word)
    }
}

#[tactic(auto, unfolding(crate::specs::Mnemonics::opcode_from_dup_on))]
fn opcode_from_dup_on(word: &Name) -> Option<u8>
    ensures { result ≡ opcode_from_dup_on word.now }
{
    if says(word, "dup") {
        Some(0x59)
    } else if says(word, "dup_x1") {
        Some(0x5a)
    } else if says(word, "dup_x2") {
        Some(0x5b)
    } else if says(word, "dup2") {
        Some(0x5c)
    } else if says(word, "dup2_x1") {
        Some(0x5d)
    } else if says(word, "dup2_x2") {
        Some(0x5e)
    } else if says(word, "swap") {
        Some(0x5f)
    } else if says(word, "iadd") {
        Some(0x60)
    } else if says(word, "ladd") {
        Some(0x61)
    } else if says(word, "isub") {
        Some(0x64)
    } else if says(word, "lsub") {
        Some(0x65)
    } else if says(word, "imul") {
        Some(0x68)
    } else {
        opcode_from_lmul_on(word)
    }
}
