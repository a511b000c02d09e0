//! The exception table (JVMS 4.7.3).

ghost use Rattle.mt_insn.specs.Order.{Ascends};
ghost use Rattle.codec_rules.specs.Reading.{many_at};
ghost use Rattle.mt_attrs.specs.Item.{ReadsPart};
ghost use Rattle.mt_attrs.specs.Rows.{row_at, rows_at};

use crate::fault::ItemFault;
use crate::item::u2;
use crate::named::read_caught;
use crate::place::{read_end, read_place};
use class_model::{CheckedPool, Row, Seq};
use mt_bytes::Cursor;
use std::alloc::Global;

#[tactic(auto, unfolding(crate::specs::Rows::row_at))]
fn read_row(
    pool: &CheckedPool,
    starts: &[u32],
    end: u32,
    cur: &mut Cursor,
) -> Result<Row, ItemFault>
    requires { Ascends starts.now }
    ensures { ReadsPart (row_at pool.now starts.now end) cur.old cur.new result }
{
    let first = cur.at();
    let start = read_place(first, starts, cur)?;
    let last = read_end(first, starts, end, start, cur)?;
    let handler = read_place(first, starts, cur)?;
    let catch = read_caught(pool, cur)?;
    Ok(Row {
        start,
        end: last,
        handler,
        catch,
    })
}

fn read_counted_rows(
    alloc: Global,
    pool: &CheckedPool,
    starts: &[u32],
    end: u32,
    count: u16,
    cur: &mut Cursor,
) -> Result<Seq<Row>, ItemFault>
    requires { Ascends starts.now }
    ensures { ReadsPart (many_at (row_at pool.now starts.now end) count) cur.old cur.new result }
{
    let mut rows = Seq::new(alloc);
    for _ in 0..count {
        let row = read_row(pool, starts, end, cur)?;
        rows.push(row)?;
    }
    Ok(rows)
}

/// The rows of a code that ends at `end`.
pub fn read_rows(
    alloc: Global,
    pool: &CheckedPool,
    starts: &[u32],
    end: u32,
    cur: &mut Cursor,
) -> Result<Seq<Row>, ItemFault>
    requires { Ascends starts.now }
    ensures { ReadsPart (rows_at pool.now starts.now end) cur.old cur.new result }
{
    let count = u2(cur)?;
    read_counted_rows(alloc, pool, starts, end, count, cur)
}
