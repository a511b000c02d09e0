//! Writing the items of instructions.

ghost use Rattle.std.specs.Prelude.{◌≡◌, ◌++◌, OnOk, replicate};
ghost use Rattle.mt_insn.specs.Spelling.{u1, u2, u4, s1, s2, s4, padding_bytes};

use crate::switch::padding;
use class_model::{Bytes, Memory};

pub fn put_u1(out: &mut Bytes, n: u8) -> Result<(), Memory>
    ensures { OnOk result (out.new ≡ out.old ++ u1 n) }
{
    out.extend_from_slice(&n.to_be_bytes())
}

pub fn put_u2(out: &mut Bytes, n: u16) -> Result<(), Memory>
    ensures { OnOk result (out.new ≡ out.old ++ u2 n) }
{
    out.extend_from_slice(&n.to_be_bytes())
}

pub fn put_u4(out: &mut Bytes, n: u32) -> Result<(), Memory>
    ensures { OnOk result (out.new ≡ out.old ++ u4 n) }
{
    out.extend_from_slice(&n.to_be_bytes())
}

pub fn put_s1(out: &mut Bytes, n: i8) -> Result<(), Memory>
    ensures { OnOk result (out.new ≡ out.old ++ s1 n) }
{
    out.extend_from_slice(&n.to_be_bytes())
}

pub fn put_s2(out: &mut Bytes, n: i16) -> Result<(), Memory>
    ensures { OnOk result (out.new ≡ out.old ++ s2 n) }
{
    out.extend_from_slice(&n.to_be_bytes())
}

pub fn put_s4(out: &mut Bytes, n: i32) -> Result<(), Memory>
    ensures { OnOk result (out.new ≡ out.old ++ s4 n) }
{
    out.extend_from_slice(&n.to_be_bytes())
}

/// Zeros up to the next multiple of four from a place.
pub fn put_padding(out: &mut Bytes, place: u64) -> Result<(), Memory>
    ensures { OnOk result (out.new ≡ out.old ++ padding_bytes place) }
{
    for _ in 0..padding(place) {
        out.push(0)?;
    }
    Ok(())
}
