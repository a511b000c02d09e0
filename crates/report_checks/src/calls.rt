//! The calls of `report_schema`, `report_pieces` and `report_sources`, under their own contracts.

ghost use Rattle.std.specs.Prelude.{◌≡◌, map, IfOk, string_bytes};
ghost use Rattle.report_pieces.specs.Groups.{groups_of, keys_at};
ghost use Rattle.report_pieces.specs.Report.{ReportText};
ghost use Rattle.report_schema.specs.Summary.{Summary};
ghost use Rattle.report_sources.specs.Sources.{sources_of, Asks, ReadsBy};

use class_model::{Bytes, Memory, Seq};
use mt_edge::Tree;
use mutator_ops::Verdict;
use report_pieces::{Group, ReportInput};
use report_sources::SourceFault;
use std::alloc::Global;

/// The text of a report.
pub fn report_text(alloc: Global, input: &ReportInput) -> Result<Bytes, Memory>
    ensures { IfOk result (λ text. text ≡ ReportText input.now) }
{
    Ok(report_pieces::report_text(alloc, input)?)
}

/// The line of counts.
pub fn summary_text(alloc: Global, verdicts: &Seq<Verdict>, reused: u64) -> Result<Bytes, Memory>
    ensures { IfOk result (λ text. text ≡ Summary verdicts.now reused) }
{
    let text = report_schema::summary_text(alloc, verdicts, reused)?;
    Ok(text)
}

/// The places of each key.
pub fn grouped(alloc: Global, keys: &[String], numbers: &[u32]) -> Result<Seq<Group>, Memory>
    ensures { IfOk result (λ groups.
        groups ≡ groups_of (keys_at (map string_bytes keys.now) numbers.now)) }
{
    let groups = report_pieces::grouped(alloc, keys, numbers)?;
    Ok(groups)
}

/// The source of each file.
pub fn read_sources<T: Tree>(
    alloc: Global,
    tree: &mut T,
    folder: &str,
    groups: &[Group],
) -> Result<Seq<Bytes>, SourceFault>
    ensures value { ReadsBy (T.holds tree.old) (sources_of folder.now groups.now) result }
    ensures tree { Asks T.holds T.writing T.reading tree.old tree.new result }
{
    let sources = report_sources::read_sources(alloc, tree, folder, groups)?;
    Ok(sources)
}
