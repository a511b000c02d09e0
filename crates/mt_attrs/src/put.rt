//! What every writer does: counts, contents and places.

ghost use Rattle.std.specs.Prelude.{◌≡◌, ◌++◌, ◌+◌, ◌<◌, ◌≤◌, ◌^◌, length, OnOk, OnErr};
ghost use Rattle.mt_insn.specs.Order.{AreNear};
ghost use Rattle.mt_attrs.specs.Item.{u2, sized};
ghost use Rattle.mt_attrs.specs.Places.{start_of, bound_of};
ghost use Rattle.mt_attrs.specs.Layout.{Writes, count_bound, size_bound};

use class_model::{Bound, Bytes, LayoutFault, Memory};
use mt_bytes::{put_u2, put_u4};

/// The count of a list.
pub fn write_count(count: usize, out: &mut Bytes) -> Result<(), LayoutFault>
    ensures { Writes (count_bound count) (u2 count) out.old out.new result }
{
    if count > 0xffff {
        return Err(LayoutFault::TooLarge { what: Bound::List });
    }
    put_u2(out, count as u16)?;
    Ok(())
}

/// The content of an attribute, behind its length.
pub fn write_content(content: &Bytes, out: &mut Bytes) -> Result<(), LayoutFault>
    ensures { Writes (size_bound content.now) (sized content.now) out.old out.new result }
{
    if content.len() > 0xffff_ffff {
        return Err(LayoutFault::TooLarge {
            what: Bound::Attribute,
        });
    }
    put_u4(out, content.len() as u32)?;
    out.extend_from_slice(content.as_slice())?;
    Ok(())
}

/// The place of an instruction.
pub fn put_start(starts: &[u32], number: u32, out: &mut Bytes) -> Result<(), Memory>
    requires known { number < length starts.now }
    requires near { AreNear starts.now }
    ensures { OnOk result (out.new ≡ out.old ++ u2 (start_of starts.now number)) }
{
    put_u2(out, starts[number as usize] as u16)
}

/// The place of an instruction, or the code's end.
pub fn put_bound(starts: &[u32], end: u32, number: u32, out: &mut Bytes) -> Result<(), Memory>
    requires known { number ≤ length starts.now }
    requires near { AreNear starts.now }
    requires short { end < 2 ^ 16 }
    ensures { OnOk result (out.new ≡ out.old ++ u2 (bound_of starts.now end number)) }
{
    if number as usize == starts.len() {
        put_u2(out, end as u16)
    } else {
        put_start(starts, number, out)
    }
}
