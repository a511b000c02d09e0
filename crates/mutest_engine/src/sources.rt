//! The sources of a report, where a folder of sources is named.

ghost use Rattle.std.specs.Prelude.{◌≡◌, IfOk, Some};
ghost use Rattle.mutest_words.specs.Words.{lent_text};
ghost use Rattle.mutest_engine.specs.Refusals.{IsOfSources};
ghost use Rattle.mutest_engine.specs.Sources.{sources_below, sources_in, with_sources, AreNamed, halt_of};
ghost use Rattle.mutest_engine.specs.Steps.{Asks, ReadsHeld};

use crate::refusal::{Limit, Refusal};
use crate::stop::Halt;
use class_model::{Bytes, Seq};
use mt_edge::Tree;
use report_pieces::{Group, ReportInput};
use report_sources::{SourceFault, read_sources};
use std::alloc::Global;

fn halt_of(fault: SourceFault) -> Halt
    ensures { result ≡ halt_of fault }
{
    match fault {
        SourceFault::TooMany { bytes } => Halt::Refused(Refusal::TooMany {
            limit: Limit::Sources,
            number: bytes,
        }),
        SourceFault::Failed => Halt::ReadFault { faults: 1 },
        SourceFault::Memory => Halt::WantOfMemory,
    }
}

// The sources of files below a folder.
fn sources_below<T: Tree>(
    alloc: Global,
    tree: &mut T,
    folder: &str,
    groups: &[Group],
) -> Result<Seq<Bytes>, Halt>
    ensures value { ReadsHeld (T.holds tree.old) (sources_below folder.now groups.now) result }
    ensures tree { Asks T.holds T.writing T.reading (IsOfSources (Some folder.now)) tree.old tree.new
        result }
{
    match read_sources(alloc, tree, folder, groups) {
        Ok(sources) => Ok(sources),
        Err(fault) => Err(halt_of(fault)),
    }
}

/// The sources of files below a folder, if one is named; else none.
pub fn sources_in<T: Tree>(
    alloc: Global,
    tree: &mut T,
    folder: Option<&str>,
    groups: &[Group],
) -> Result<Seq<Bytes>, Halt>
    ensures value { ReadsHeld (T.holds tree.old)
        (sources_in (lent_text folder.entry) groups.now) result }
    ensures named { IfOk result (AreNamed (lent_text folder.entry)) }
    ensures tree { Asks T.holds T.writing T.reading (IsOfSources (lent_text folder.entry)) tree.old
        tree.new result }
{
    match folder {
        Some(folder) => sources_below(alloc, tree, folder, groups),
        None => Ok(Seq::new(alloc)),
    }
}

/// What is reported, with these sources.
pub fn with_sources(input: ReportInput, sources: Seq<Bytes>) -> ReportInput
    ensures { result ≡ with_sources input sources }
{
    ReportInput {
        mutants: input.mutants,
        verdicts: input.verdicts,
        tests: input.tests,
        files: input.files,
        test_files: input.test_files,
        sources,
    }
}
