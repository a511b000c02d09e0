//! A journal, read from its bytes.

ghost use Rattle.std.specs.Prelude.{◌≡◌, [], IfOk};
ghost use Rattle.codec_rules.specs.Meets.{Gives};
ghost use Rattle.history_rules.specs.declared.fault.HistoryFault.TheVariants.{Memory};
ghost use Rattle.run_journal.specs.Contents.{no_known};
ghost use Rattle.run_journal.specs.Reading.{journal_in};
ghost use Rattle.run_journal.specs.Calls.{ReadsMark, ReadsEntry, ReadsEntries, known_in, parts_of};

use crate::closing::mark_closing;
use crate::content::add_item;
use crate::frames::{header_of, read_chunks, read_header};
use crate::rest::Rest;
use crate::runs::Runs;
use class_model::{Bytes, Seq};
use history_rules::HistoryFault;
use std::alloc::Global;

/// What is read of a beginning of a journal: what its good entries say, and the text that makes it a
/// whole one.
#[derive(Drop)]
pub struct JournalRead {
    pub runs: Runs,
    pub closing: Bytes,
}

// The mark of an entry with this content. Where the text ends there, the closing is told.
fn read_mark(
    alloc: Global,
    content: &[u8],
    rest: &mut Rest,
    runs: &mut Runs,
) -> Result<Option<Bytes>, HistoryFault>
    ensures { ReadsMark content.now rest.old rest.new (known_in runs.old) (known_in runs.new)
        result }
{
    let at = rest.at();
    let Some(mark) = rest.next() else {
        let closing = mark_closing(alloc)?;
        return Ok(Some(closing));
    };
    if mark == 2 {
        return Ok(None);
    }
    if mark != 1 {
        return Err(HistoryFault::HistoryBad { at });
    }
    match add_item(alloc, content, at, runs) {
        Ok(()) => Ok(None),
        Err(fault) => Err(fault),
    }
}

// One entry more. Where the text ends in it, or before it, the closing is told.
fn read_entry(
    alloc: Global,
    rest: &mut Rest,
    runs: &mut Runs,
) -> Result<Option<Bytes>, HistoryFault>
    ensures { ReadsEntry rest.old rest.new (known_in runs.old) (known_in runs.new) result }
{
    let mut content = Bytes::new(alloc);
    if let Some(closing) = read_chunks(alloc, rest, &mut content)? {
        return Ok(Some(closing));
    }
    read_mark(alloc, content.as_slice(), rest, runs)
}

fn read_entries(alloc: Global, rest: &mut Rest, runs: &mut Runs) -> Result<Bytes, HistoryFault>
    ensures { ReadsEntries rest.old (known_in runs.old) (known_in runs.new) result }
{
    'entries: loop {
        if let Some(closing) = read_entry(alloc, rest, runs)? {
            return Ok(closing);
        }
    }
}

/// What these bytes say to a tool of this number, where they are a beginning of a journal; else the
/// first fault.
pub fn read_journal(alloc: Global, profile: u16, bytes: &[u8]) -> Result<JournalRead, HistoryFault>
    ensures { Gives Memory parts_of (journal_in profile bytes.now) result }
{
    let mut rest = Rest::new(bytes);
    let mut runs = Runs {
        classes: Seq::new(alloc),
        records: Seq::new(alloc),
    };
    let header = header_of(profile);
    if let Some(closing) = read_header(alloc, &header, &mut rest)? {
        return Ok(JournalRead { runs, closing });
    }
    let closing = read_entries(alloc, &mut rest, &mut runs)?;
    Ok(JournalRead { runs, closing })
}
