//! The report.

ghost use Rattle.std.specs.Prelude.{◌≡◌, ◌++◌, IfOk, OnOk};
ghost use Rattle.report_pieces.specs.Pieces.{report_text};
ghost use Rattle.report_pieces.specs.Report.{ReportText};

use crate::files::{put_files, put_test_files};
use crate::identifiers::quoted_ids;
use crate::input::ReportInput;
use crate::pieces::put;
use class_model::{Bytes, Memory};
use std::alloc::Global;

// The report by the identifiers of its tests.
fn put_report(
    alloc: Global,
    text: &mut Bytes,
    ids: &[Bytes],
    input: &ReportInput,
) -> Result<(), Memory>
    ensures { OnOk result (text.new ≡ text.old ++ report_text ids.now input.now) }
{
    put(text, "{\"files\":{")?;
    put_files(alloc, text, ids, input, input.files.as_slice())?;
    put(text, ",\"schemaVersion\":\"1\",\"testFiles\":{")?;
    put_test_files(
        alloc,
        text,
        input.tests.as_slice(),
        input.test_files.as_slice(),
    )?;
    put(text, ",\"thresholds\":{\"high\":80,\"low\":60}}")?;
    Ok(())
}

/// The report as one line of JSON without a line feed, in the mutation testing report schema. It is
/// written piece by piece: beside the text it holds the tests' identifiers, and a part of one
/// mutant or the source of one file.
#[tactic(auto, using(crate::proofs::Printed::printed_is))]
pub fn report_text(alloc: Global, input: &ReportInput) -> Result<Bytes, Memory>
    ensures { IfOk result (λ text. text ≡ ReportText input.now) }
{
    let ids = quoted_ids(alloc, input.tests.as_slice())?;
    let mut text = Bytes::new(alloc);
    put_report(alloc, &mut text, ids.as_slice(), input)?;
    Ok(text)
}
