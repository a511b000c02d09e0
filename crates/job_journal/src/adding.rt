//! What a journal gains where a record is added.

ghost use Rattle.std.specs.Prelude.{◌≡◌, ◌<◌, ◌∷◌, ◌++◌, ◌^◌, length, All, IfOk, OnOk, []};
ghost use Rattle.history_rules.specs.Histories.{class_put};
ghost use Rattle.history_rules.specs.Laws.{HasShortClass, IsFormed};
ghost use Rattle.run_journal.specs.Contents.{class_content, record_content};
ghost use Rattle.run_journal.specs.Entries.{entry_bytes, good_entry};
ghost use Rattle.job_journal.specs.Adding.{class_entry, HasNumbers};
ghost use Rattle.job_journal.specs.Tables.{IsShort, PutsClasses};

use crate::numbers::ClassNumbers;
use crate::written::put_record;
use class_model::{Bytes, Memory, Name, SharedBytes};
use mt_bytes::put_u4;
use record_rules::RunRecord;
use run_journal::put_entry;
use std::alloc::Global;

// The content of an entry for a class.
fn class_content(alloc: Global, class: &[u8]) -> Result<Bytes, Memory>
    requires { length class.now < 2 ^ 32 }
    ensures { IfOk result (λ content. content ≡ class_content class.now) }
{
    let mut content = Bytes::new(alloc);
    content.push(1)?;
    put_u4(&mut content, class.len() as u32)?;
    content.extend_from_slice(class)?;
    Ok(content)
}

/// The content of an entry for a record.
pub fn record_content(alloc: Global, numbers: &ClassNumbers, r: &RunRecord) -> Result<Bytes, Memory>
    requires form { IsFormed r.now }
    requires numbers { HasNumbers numbers.now r.now }
    ensures { IfOk result (λ content. content ≡ record_content numbers.now r.now) }
{
    let mut content = Bytes::new(alloc);
    content.push(3)?;
    put_record(alloc, numbers, r, &mut content)?;
    Ok(content)
}

// An entry for a class that isn't there, and its number.
fn put_new_class(
    alloc: Global,
    numbers: &mut ClassNumbers,
    class: &SharedBytes,
    out: &mut Bytes,
) -> Result<(), Memory>
    requires { length class.now < 2 ^ 32 }
    ensures numbers { OnOk result (numbers.new ≡ numbers.old ++ class.now ∷ []) }
    ensures out { OnOk result
        (out.new ≡ out.old ++ entry_bytes (good_entry (class_content class.now))) }
{
    let content = class_content(alloc, class.as_slice())?;
    put_entry(content.as_slice(), out)?;
    let class = class.copy()?;
    numbers.push(class)?;
    Ok(())
}

// The same unless it is there.
fn put_class(
    alloc: Global,
    numbers: &mut ClassNumbers,
    class: &Option<SharedBytes>,
    out: &mut Bytes,
) -> Result<(), Memory>
    requires { HasShortClass class.now }
    ensures numbers { OnOk result (numbers.new ≡ class_put numbers.old class.now) }
    ensures out { OnOk result (out.new ≡ out.old ++ class_entry numbers.old class.now) }
{
    match class {
        None => Ok(()),
        Some(class) => {
            if numbers.number(class.as_slice()).is_some() {
                return Ok(());
            }
            put_new_class(alloc, numbers, class, out)
        }
    }
}

/// Entries for those classes of a record that aren't there, and their numbers.
pub fn put_classes(
    alloc: Global,
    numbers: &mut ClassNumbers,
    entries: &[(Name, Option<SharedBytes>)],
    out: &mut Bytes,
) -> Result<(), Memory>
    requires { All IsShort entries.now }
    ensures { OnOk result (PutsClasses entries.now numbers.old numbers.new out.old out.new) }
{
    for entry in entries {
        put_class(alloc, numbers, &entry.1, out)?;
    }
    Ok(())
}
