//! Reading and writing a whole pool.

ghost use Rattle.std.specs.Prelude.{◌≡◌, ◌++◌, OnOk};
ghost use Rattle.class_model.specs.declared.fault.LayoutFault.TheVariants as layout_fault;
ghost use Rattle.codec_rules.specs.Input.{IsInput};
ghost use Rattle.codec_rules.specs.Meets.{Gives};
ghost use Rattle.mt_bytes.specs.Items.{ReadsItem};
ghost use Rattle.mt_pool.specs.Spelling.{pool_bytes};
ghost use Rattle.mt_pool.specs.Whole.{pool_at, layout};

use crate::entry::read_places;
use crate::index::check_entries;
use crate::put::put_entries;
use crate::size::have_text_size;
use class_model::{Bound, Bytes, ClassFault, Const, LayoutFault, Seq};
use mt_bytes::{Cursor, put_u2};
use std::alloc::Global;

/// The pool at the cursor. The indices are looked at once all entries are read.
#[tactic(auto, unfolding(crate::specs::Whole::pool_at))]
pub fn read_whole(alloc: Global, cur: &mut Cursor) -> Result<Seq<Const>, ClassFault>
    ensures known { IsInput cur.old }
    ensures exact { ReadsItem pool_at cur.old cur.new result }
{
    let _place = cur.at();
    let count = cur.u2()?;
    let start = cur.at();
    let entries = read_places(alloc, count.saturating_sub(1), cur)?;
    check_entries(alloc, entries.as_slice(), start)?;
    Ok(entries)
}

/// The bytes of the pool, where they have room.
pub fn write_whole(pool: &[Const], out: &mut Bytes) -> Result<(), LayoutFault>
    ensures ok { OnOk result (out.new ≡ out.old ++ pool_bytes pool.now) }
    ensures exact { Gives layout_fault.Memory (λ _. pool_bytes pool.now) (layout pool.now) result }
    ensures unchanged { (what : _) → result ≡ Err (layout_fault.TooLarge what) → out.new ≡ out.old }
{
    if pool.len() >= 0xffff {
        return Err(LayoutFault::TooLarge { what: Bound::Pool });
    }
    if !have_text_size(pool) {
        return Err(LayoutFault::TooLarge { what: Bound::Text });
    }
    put_u2(out, pool.len() as u16 + 1)?;
    put_entries(pool, out)?;
    Ok(())
}
