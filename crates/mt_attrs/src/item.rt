//! Items of an attribute: numbers and bytes at a place, with what reading them needs.

ghost use Rattle.std.specs.Prelude.{◌≡◌};
ghost use Rattle.std.specs.Int.{w8, w16, w32};
ghost use Rattle.mt_attrs.specs.Item.{number, some_bytes, carried_at, ReadsPart, ReadsBy};

use crate::fault::ItemFault;
use class_model::{Bytes, Seq};
use mt_bytes::Cursor;
use std::alloc::Global;

/// A number of one byte.
pub fn u1(cur: &mut Cursor) -> Result<u8, ItemFault>
    ensures { ReadsPart (number w8) cur.old cur.new result }
{
    match cur.u1() {
        Ok(n) => Ok(n),
        Err(short) => Err(ItemFault::Short {
            at: short.at,
            need: 1,
        }),
    }
}

/// A number of two bytes.
pub fn u2(cur: &mut Cursor) -> Result<u16, ItemFault>
    ensures { ReadsPart (number w16) cur.old cur.new result }
{
    match cur.u2() {
        Ok(n) => Ok(n),
        Err(short) => Err(ItemFault::Short {
            at: short.at,
            need: 2,
        }),
    }
}

/// A number of four bytes.
pub fn u4(cur: &mut Cursor) -> Result<u32, ItemFault>
    ensures { ReadsPart (number w32) cur.old cur.new result }
{
    match cur.u4() {
        Ok(n) => Ok(n),
        Err(short) => Err(ItemFault::Short {
            at: short.at,
            need: 4,
        }),
    }
}

/// So many bytes, which are one item.
pub fn take<'a>(cur: &mut Cursor<'a>, count: u32) -> Result<&'a [u8], ItemFault>
    ensures { ReadsBy (λ bytes. bytes.now) (some_bytes count) cur.old cur.new result }
{
    match cur.take(count) {
        Ok(bytes) => Ok(bytes),
        Err(short) => Err(ItemFault::Short {
            at: short.at,
            need: u64::from(count),
        }),
    }
}

/// The bytes of an attribute that is carried, behind their length.
pub fn read_carried(alloc: Global, cur: &mut Cursor) -> Result<Bytes, ItemFault>
    ensures { ReadsPart carried_at cur.old cur.new result }
{
    let len = u4(cur)?;
    let bytes = take(cur, len)?;
    Ok(Seq::from_slice(alloc, bytes)?)
}
