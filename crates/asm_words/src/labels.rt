//! The labels of a method.

ghost use Rattle.std.specs.Prelude.{◌≡◌, ◌≤◌, ◌++◌, option_to_list, IfOk, OnOk};
ghost use Rattle.asm_words.specs.Labels.{weight, labels_of, label_at, is_first, place_of, start_in, end_in};

use crate::keyword::{LineKind, line_kind};
use crate::known_labels::{KnownLabels, Label};
use crate::line::Line;
use crate::word::label_in;
use class_model::{Memory, Name, Seq};
use std::alloc::Global;

/// The labels of a method, and how many instructions it has.
#[derive(Drop)]
pub struct Labels {
    pub known: KnownLabels,
    pub total: u64,
}

/// The label of a line before an instruction. A line with other words is wrong and has none.
fn label_of(alloc: Global, line: &Line, at: u64) -> Result<Option<Label>, Memory>
    ensures { IfOk result (λ o. o ≡ place_of at line.now) }
{
    if line_kind(line) != LineKind::Label {
        return Ok(None);
    }
    let [word] = line.words.as_slice() else {
        return Ok(None);
    };
    match label_in(word.as_slice()) {
        Some(name) => Ok(Some(Label {
            name: Seq::from_slice(alloc, name)?,
            at,
            line: line.number,
        })),
        None => Ok(None),
    }
}

fn push_label(known: &mut KnownLabels, label: Option<Label>) -> Result<(), Memory>
    ensures { OnOk result (known.new ≡ known.old ++ option_to_list label) }
{
    if let Some(label) = label {
        known.push(label)?;
    }
    Ok(())
}

/// How many instructions a line has.
fn weight(line: &Line) -> u64
    ensures value { result ≡ weight line.now }
    ensures few { result ≤ 1 }
{
    if line_kind(line) == LineKind::Instruction {
        1
    } else {
        0
    }
}

/// The labels of the lines of a method, and how many instructions these have.
pub fn labels_of(alloc: Global, lines: &[Line]) -> Result<Labels, Memory>
    ensures { IfOk result (λ labels. labels ≡ labels_of lines.now) }
{
    let mut known = KnownLabels::new(alloc);
    let mut total = 0u64;
    for line in lines {
        let label = label_of(alloc, line, total)?;
        push_label(&mut known, label)?;
        total += weight(line);
    }
    Ok(Labels { known, total })
}

/// Where a label stands.
fn label_at(labels: &Labels, name: &Name) -> Option<u64>
    ensures { result ≡ label_at labels.now name.now }
{
    let label = labels.known.first(name)?;
    Some(label.at)
}

/// The label of this name on this line is the first of its name.
pub fn is_first(labels: &Labels, name: &Name, line: u64) -> bool
    ensures { result ≡ is_first labels.now name.now line }
{
    match labels.known.first(name) {
        Some(label) => label.line == line,
        None => false,
    }
}

/// The number of the instruction before which a label stands.
pub fn start_in(labels: &Labels, name: &Name) -> Option<u32>
    ensures { result ≡ start_in labels.now name.now }
{
    let at = label_at(labels, name)?;
    if at < labels.total && at < 0x1_0000_0000 {
        Some(at as u32)
    } else {
        None
    }
}

/// The same, where a label behind the last instruction names the code's end.
pub fn end_in(labels: &Labels, name: &Name) -> Option<u32>
    ensures { result ≡ end_in labels.now name.now }
{
    let at = label_at(labels, name)?;
    if at <= labels.total && at < 0x1_0000_0000 {
        Some(at as u32)
    } else {
        None
    }
}
