//! Writing numbers, most significant byte first.

ghost use Rattle.std.specs.Prelude.{◌≡◌, ◌++◌, OnOk, OnErr};
ghost use Rattle.std.specs.Int.{to_be_bytes, w8, w16, w32, w64};

use class_model::{Bytes, Memory};

/// Adds a number of one byte at the end. Where memory runs out the list is unchanged.
pub fn put_u1(out: &mut Bytes, v: u8) -> Result<(), Memory>
    ensures ok { OnOk result (out.new ≡ out.old ++ to_be_bytes w8 v) }
    ensures err { OnErr result (out.new ≡ out.old) }
{
    let bytes: [u8; 1] = v.to_be_bytes();
    out.extend_from_slice(&bytes)
}

/// Adds a number of two bytes at the end, most significant first. Where memory runs out the list is
/// unchanged.
pub fn put_u2(out: &mut Bytes, v: u16) -> Result<(), Memory>
    ensures ok { OnOk result (out.new ≡ out.old ++ to_be_bytes w16 v) }
    ensures err { OnErr result (out.new ≡ out.old) }
{
    let bytes: [u8; 2] = v.to_be_bytes();
    out.extend_from_slice(&bytes)
}

/// Adds a number of four bytes at the end, most significant first. Where memory runs out the list
/// is unchanged.
pub fn put_u4(out: &mut Bytes, v: u32) -> Result<(), Memory>
    ensures ok { OnOk result (out.new ≡ out.old ++ to_be_bytes w32 v) }
    ensures err { OnErr result (out.new ≡ out.old) }
{
    let bytes: [u8; 4] = v.to_be_bytes();
    out.extend_from_slice(&bytes)
}

/// Adds a number of eight bytes at the end, most significant first. Where memory runs out the list
/// is unchanged.
pub fn put_u8(out: &mut Bytes, v: u64) -> Result<(), Memory>
    ensures ok { OnOk result (out.new ≡ out.old ++ to_be_bytes w64 v) }
    ensures err { OnErr result (out.new ≡ out.old) }
{
    let bytes: [u8; 8] = v.to_be_bytes();
    out.extend_from_slice(&bytes)
}
