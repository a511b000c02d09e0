//! LineNumberTable (JVMS 4.7.12).

ghost use Rattle.mt_insn.specs.Order.{Ascends};
ghost use Rattle.codec_rules.specs.Reading.{many_at};
ghost use Rattle.mt_attrs.specs.Item.{ReadsPart};
ghost use Rattle.mt_attrs.specs.Lines.{line_at, lines_at};

use crate::fault::ItemFault;
use crate::item::u2;
use crate::place::read_place;
use class_model::Seq;
use mt_bytes::Cursor;
use std::alloc::Global;

#[tactic(auto, unfolding(crate::specs::Lines::line_at))]
fn read_line(starts: &[u32], cur: &mut Cursor) -> Result<(u32, u16), ItemFault>
    requires { Ascends starts.now }
    ensures { ReadsPart (line_at starts.now) cur.old cur.new result }
{
    let first = cur.at();
    let start = read_place(first, starts, cur)?;
    let line = u2(cur)?;
    Ok((start, line))
}

fn read_counted_lines(
    alloc: Global,
    starts: &[u32],
    count: u16,
    cur: &mut Cursor,
) -> Result<Seq<(u32, u16)>, ItemFault>
    requires { Ascends starts.now }
    ensures { ReadsPart (many_at (line_at starts.now) count) cur.old cur.new result }
{
    let mut lines = Seq::new(alloc);
    for _ in 0..count {
        let line = read_line(starts, cur)?;
        lines.push(line)?;
    }
    Ok(lines)
}

/// The rows of a line table.
pub fn read_lines(
    alloc: Global,
    starts: &[u32],
    cur: &mut Cursor,
) -> Result<Seq<(u32, u16)>, ItemFault>
    requires { Ascends starts.now }
    ensures { ReadsPart (lines_at starts.now) cur.old cur.new result }
{
    let count = u2(cur)?;
    read_counted_lines(alloc, starts, count, cur)
}
