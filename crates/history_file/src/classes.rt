//! The classes of a history.

ghost use Rattle.std.specs.Prelude.{◌≡◌, [], ◌∷◌, List, ℕ, map, Ok, IfOk, MatchResult};
ghost use Rattle.codec_rules.specs.Meets.{Fails};
ghost use Rattle.history_rules.specs.declared.fault.HistoryFault.TheVariants.{Memory};
ghost use Rattle.history_rules.specs.Items.{counted_by, many_by};
ghost use Rattle.history_rules.specs.Classes.{class_at, with_class, IsClassBehind};
ghost use Rattle.history_file.specs.Files.{AreClasses, ReadsSlices};
ghost use Rattle.history_file.specs.Texts.{HasSlices};

use crate::slices::Slices;
use class_model::Seq;
use history_rules::HistoryFault;
use mt_bytes::Cursor;
use std::alloc::Global;

// A class, which may not be one of those before. It is told behind its length.
#[tactic(auto, unfolding(history_rules::specs::Classes::class_at))]
fn read_class<'a>(seen: &mut Slices<'a>, cur: &mut Cursor<'a>) -> Result<&'a [u8], HistoryFault>
    ensures read { (before : List (List ℕ)) → HasSlices seen.old before →
        MatchResult result (λ class. class_at before cur.old ≡ Ok (class.now, cur.new))
        (λ fault. Fails Memory fault (class_at before cur.old)) }
    ensures told { (before : List (List ℕ)) → HasSlices seen.old before →
        IfOk result (λ class. IsClassBehind before class.now
        × HasSlices seen.new (class.now ∷ before)) }
{
    let len = cur.u4()?;
    let at = cur.at();
    let class = cur.take(len)?;
    let fresh = seen.insert(class)?;
    if !fresh {
        return Err(HistoryFault::HistoryBad { at });
    }
    Ok(class)
}

fn read_counted_classes<'a>(
    alloc: Global,
    count: u32,
    cur: &mut Cursor<'a>,
) -> Result<Seq<&'a [u8]>, HistoryFault>
    ensures read { ReadsSlices (many_by class_at with_class [] count) cur.old cur.new result }
    ensures told { IfOk result (λ classes. AreClasses cur.old cur.new (map (λ s. s.now) classes)) }
{
    let mut seen = Slices::new(alloc);
    let mut classes = Seq::new(alloc);
    for _ in 0..count {
        let class = read_class(&mut seen, cur)?;
        classes.push(class)?;
    }
    Ok(classes)
}

/// The classes, as slices of the file. They differ.
#[tactic(auto, using(crate::proofs::Counted::counted_long))]
pub fn read_classes<'a>(alloc: Global, cur: &mut Cursor<'a>) -> Result<Seq<&'a [u8]>, HistoryFault>
    ensures read { ReadsSlices (counted_by class_at with_class []) cur.old cur.new result }
    ensures told { IfOk result (λ classes. AreClasses cur.old cur.new (map (λ s. s.now) classes)) }
{
    let count = cur.u4()?;
    let classes = read_counted_classes(alloc, count, cur)?;
    Ok(classes)
}
