//! The header of a journal, and the chunks of its entries.

ghost use Rattle.std.specs.Prelude.{◌≡◌, ◌<◌, length, IfOk};
ghost use Rattle.run_journal.specs.Entries.{header};
ghost use Rattle.run_journal.specs.Reading.{item_place};
ghost use Rattle.run_journal.specs.Calls.{TakesWanted, ReadsHeader, ReadsChunks};

use crate::closing::{chunk_closing, open_closing};
use crate::rest::Rest;
use class_model::{Bytes, Memory};
use history_rules::HistoryFault;
use std::alloc::Global;

/// The header for a tool of this number.
pub fn header_of(profile: u16) -> [u8; 8]
    ensures { result ≡ header profile }
{
    let high = (profile / 256) as u8;
    let low = (profile % 256) as u8;
    [0x4d, 0x54, 0x4a, 0x52, 0, 1, high, low]
}

// The first byte of the item of the header that has this place.
fn item_place(at: u64) -> u64
    ensures { result ≡ item_place at }
{
    if at < 4 {
        0
    } else if at < 6 {
        4
    } else {
        6
    }
}

// Takes the next byte of the header, if there is one. Another byte is told at its item.
fn take_wanted(wanted: u8, rest: &mut Rest) -> Result<bool, HistoryFault>
    ensures { TakesWanted wanted rest.old rest.new result }
{
    let at = rest.at();
    let Some(byte) = rest.next() else {
        return Ok(false);
    };
    if byte != wanted {
        return Err(HistoryFault::HistoryBad { at: item_place(at) });
    }
    Ok(true)
}

/// Reads the header. Where the text ends in it, the rest of it is the closing.
pub fn read_header(
    alloc: Global,
    header: &[u8],
    rest: &mut Rest,
) -> Result<Option<Bytes>, HistoryFault>
    requires { 0 < length header.now }
    ensures { ReadsHeader header.now rest.old rest.new result }
{
    let mut wanted = header;
    'bytes: while let [first, behind @ ..] = wanted {
        let is_there = take_wanted(*first, rest)?;
        if !is_there {
            let closing = Bytes::from_slice(alloc, wanted)?;
            return Ok(Some(closing));
        }
        wanted = behind;
    }
    Ok(None)
}

/// Reads chunks behind what is there of a content, up to the 0 of their entry. Where the text ends in
/// it, the closing is told.
pub fn read_chunks(
    alloc: Global,
    rest: &mut Rest,
    content: &mut Bytes,
) -> Result<Option<Bytes>, Memory>
    ensures { IfOk result (ReadsChunks rest.old rest.new content.old content.new) }
{
    'chunks: while let Some(len) = rest.next() {
        if len == 0 {
            return Ok(None);
        }
        let len = len as usize;
        let chunk = rest.up_to(len);
        content.extend_from_slice(chunk)?;
        if chunk.len() < len {
            let closing = chunk_closing(alloc, len - chunk.len())?;
            return Ok(Some(closing));
        }
    }
    let closing = open_closing(alloc, content.as_slice())?;
    Ok(Some(closing))
}
