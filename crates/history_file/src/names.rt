//! Names, read by number.

ghost use Rattle.std.specs.Prelude.{◌≡◌, ◌<◌, ◌+◌, IfOk};
ghost use Rattle.history_rules.specs.Items.{text_at};
ghost use Rattle.history_file.specs.Rows.{name_of};
ghost use Rattle.history_file.specs.Texts.{AreTexts, HasRoom};
ghost use Rattle.history_file.specs.Reading.{ReadsUnder, Told, placed_name};

use crate::texts::Texts;
use history_rules::HistoryFault;
use mt_bytes::Cursor;
use std::alloc::Global;

/// A text, as the number of its name.
#[tactic(auto, unfolding(history_rules::specs::Items::text_at), using(crate::proofs::Room::room_for_one, crate::proofs::Room::text_room))]
pub fn read_name<'a>(
    alloc: Global,
    texts: &mut Texts<'a>,
    cur: &mut Cursor<'a>,
) -> Result<u32, HistoryFault>
    requires known { AreTexts texts.old }
    requires room { HasRoom texts.old cur.old }
    ensures read { ReadsUnder name_of text_at texts.new cur.old cur.new result }
    ensures told { IfOk result (λ k. Told texts.old texts.new (λ n. k < n)) }
    ensures room { IfOk result (λ _. HasRoom texts.new cur.new) }
{
    let len = cur.u2()?;
    let at = cur.at();
    let bytes = cur.take(u32::from(len))?;
    let number = texts.number(alloc, bytes, at)?;
    Ok(number)
}

/// A text, as the number of its name, with the place of its first byte behind the length.
#[tactic(auto, unfolding(history_rules::specs::Items::text_at), using(crate::proofs::Room::room_for_one, crate::proofs::Room::text_room))]
pub fn read_placed_name<'a>(
    alloc: Global,
    texts: &mut Texts<'a>,
    cur: &mut Cursor<'a>,
) -> Result<(u32, u64), HistoryFault>
    requires known { AreTexts texts.old }
    requires room { HasRoom texts.old cur.old }
    ensures read { ReadsUnder placed_name text_at texts.new cur.old cur.new result }
    ensures place { IfOk result (λ x. x.1 ≡ cur.old.at + 2) }
    ensures told { IfOk result (λ x. Told texts.old texts.new (λ n. x.0 < n)) }
    ensures room { IfOk result (λ _. HasRoom texts.new cur.new) }
{
    let len = cur.u2()?;
    let at = cur.at();
    let bytes = cur.take(u32::from(len))?;
    let number = texts.number(alloc, bytes, at)?;
    Ok((number, at))
}
