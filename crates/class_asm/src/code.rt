//! The lines of a code.

ghost use Rattle.std.specs.Prelude.{◌≡◌, IfOk};
ghost use Rattle.class_asm.specs.Adding.{given_if};
ghost use Rattle.class_asm.specs.Codes.{here, is_behind, line_in, caught, row_of, row_by, row_with, row_in, is_first_label, numbered, framed, guarded, with_insn};

use crate::frame::shape_of;
use asm_words::{
    Labels, Line, StatedCode, StatedFrame, StatedRow, class_in, end_in, insn_of, is_first,
    label_in, says, start_in, u2,
};
use class_model::{Memory, Name, Seq};
use std::alloc::Global;

/// The number of the instruction behind what was stated so far, if the method has one.
fn here(labels: &Labels, code: &StatedCode) -> Option<u32>
    ensures { result ≡ here labels.now code.now }
{
    let at = code.insns.len() as u64;
    if at < labels.total && at < 0x1_0000_0000 {
        Some(at as u32)
    } else {
        None
    }
}

fn line_in(words: &[Name]) -> Option<u16>
    ensures { result ≡ line_in words.now }
{
    match words {
        [_, number] => u2(number),
        _ => None,
    }
}

/// Adds a line number for the instruction that comes next. Each of these calls answers whether the
/// line is right.
pub fn add_line(labels: &Labels, code: &mut StatedCode, line: &Line) -> Result<bool, Memory>
    ensures { IfOk result (λ ok. given_if ok code.new ≡ numbered labels.now code.old line.now) }
{
    let Some(at) = here(labels, code) else {
        return Ok(false);
    };
    let Some(number) = line_in(line.words.as_slice()) else {
        return Ok(false);
    };
    code.lines.push((at, number))?;
    Ok(true)
}

/// No frame stands at this instruction or behind it.
fn is_behind(frames: &[StatedFrame], at: u32) -> bool
    ensures { result ≡ is_behind frames.now at }
{
    frames.is_empty() || frames[frames.len() - 1].at < at
}

/// Adds a frame for the instruction that comes next.
pub fn add_frame(
    alloc: Global,
    labels: &Labels,
    code: &mut StatedCode,
    line: &Line,
) -> Result<bool, Memory>
    ensures { IfOk result (λ ok. given_if ok code.new ≡ framed labels.now code.old line.now) }
{
    let Some(at) = here(labels, code) else {
        return Ok(false);
    };
    if !is_behind(code.frames.as_slice(), at) {
        return Ok(false);
    }
    let Some(shape) = shape_of(alloc, labels, line.words.as_slice())? else {
        return Ok(false);
    };
    code.frames.push(StatedFrame { at, shape })?;
    Ok(true)
}

/// The class that a handler catches: `any` for every class.
fn caught(alloc: Global, word: &Name) -> Result<Option<Option<Name>>, Memory>
    ensures { IfOk result (λ o. o ≡ caught word.now) }
{
    if says(word, "any") {
        return Ok(Some(None));
    }
    match class_in(alloc, word)? {
        Some(name) => Ok(Some(Some(name))),
        None => Ok(None),
    }
}

fn row_of(start: u32, end: u32, handler: u32, catch: Option<Option<Name>>) -> Option<StatedRow>
    ensures { result ≡ row_of start end handler catch }
{
    if end <= start {
        return None;
    }
    match catch {
        Some(catch) => Some(StatedRow {
            start,
            end,
            handler,
            catch,
        }),
        None => None,
    }
}

fn row_by(
    labels: &Labels,
    start: &Name,
    end: &Name,
    handler: &Name,
    catch: Option<Option<Name>>,
) -> Option<StatedRow>
    ensures { result ≡ row_by labels.now start.now end.now handler.now catch }
{
    let start = start_in(labels, start)?;
    let end = end_in(labels, end)?;
    let handler = start_in(labels, handler)?;
    row_of(start, end, handler, catch)
}

fn row_with(
    alloc: Global,
    labels: &Labels,
    start: &Name,
    end: &Name,
    handler: &Name,
    catch: &Name,
) -> Result<Option<StatedRow>, Memory>
    ensures { IfOk result (λ o. o ≡ row_with labels.now start.now end.now handler.now catch.now) }
{
    let catch = caught(alloc, catch)?;
    Ok(row_by(labels, start, end, handler, catch))
}

fn row_in(alloc: Global, labels: &Labels, words: &[Name]) -> Result<Option<StatedRow>, Memory>
    ensures { IfOk result (λ o. o ≡ row_in labels.now words.now) }
{
    match words {
        [_, start, end, handler, catch] => row_with(alloc, labels, start, end, handler, catch),
        _ => Ok(None),
    }
}

/// Adds a row of the exception table.
pub fn add_row(
    alloc: Global,
    labels: &Labels,
    code: &mut StatedCode,
    line: &Line,
) -> Result<bool, Memory>
    ensures { IfOk result (λ ok. given_if ok code.new ≡ guarded labels.now code.old line.now) }
{
    let Some(row) = row_in(alloc, labels, line.words.as_slice())? else {
        return Ok(false);
    };
    code.rows.push(row)?;
    Ok(true)
}

/// Adds an instruction.
pub fn add_insn(
    alloc: Global,
    labels: &Labels,
    code: &mut StatedCode,
    line: &Line,
) -> Result<bool, Memory>
    ensures { IfOk result (λ ok. given_if ok code.new ≡ with_insn labels.now code.old line.now) }
{
    let Some(insn) = insn_of(alloc, labels, line)? else {
        return Ok(false);
    };
    code.insns.push(insn)?;
    Ok(true)
}

/// The label is the first of its name, and stands alone on its line.
pub fn is_first_label(alloc: Global, labels: &Labels, line: &Line) -> Result<bool, Memory>
    ensures { IfOk result (λ b. b ≡ is_first_label labels.now line.now) }
{
    let [word] = line.words.as_slice() else {
        return Ok(false);
    };
    match label_in(word.as_slice()) {
        Some(name) => Ok(is_first(labels, &Seq::from_slice(alloc, name)?, line.number)),
        None => Ok(false),
    }
}
