//! Fields and methods, with the lines behind theirs.

ghost use Rattle.std.specs.Prelude.{◌≡◌, IfOk};
ghost use Rattle.codec_rules.specs.Meets.{Gives};
ghost use Rattle.std.specs.Option.{option_map};
ghost use Rattle.class_asm.specs.Adding.{given_if};
ghost use Rattle.class_asm.specs.Members.{sized, code_with, member_of, field_by, field_in, code_in, method_by, method_in, code_step, noting, noted, coded, body_step, beginning, body_from, code_of, note_of, notes_of, field_of, method_of};
ghost use Rattle.class_asm.specs.declared.fault.AsmFault.TheVariants as asm_fault;

use crate::code::{add_frame, add_insn, add_line, add_row, is_first_label};
use crate::fault::AsmFault;
use crate::note::note_in;
use asm_words::{
    Labels, Line, LineKind, StatedCode, StatedMember, StatedNote, is_field_desc, is_method_desc,
    labels_of, line_kind, says, u2,
};
use class_model::{Memory, Name, Seq, is_field_name, is_method_name};
use std::alloc::Global;

/// The sizes of a code.
#[derive(Clone, Copy)]
pub struct Sizes {
    pub max_stack: u16,
    pub max_locals: u16,
}

/// What the first line of a field or a method states. One with sizes has a code.
#[derive(Drop)]
pub struct MemberHead {
    pub flags: u16,
    pub name: Name,
    pub desc: Name,
    pub sizes: Option<Sizes>,
}

fn field_by(
    alloc: Global,
    flags: &Name,
    name: &Name,
    desc: &Name,
) -> Result<Option<MemberHead>, Memory>
    ensures { IfOk result (λ o. option_map member_of o ≡ field_by flags.now name.now desc.now) }
{
    let Some(flags) = u2(flags) else {
        return Ok(None);
    };
    if !is_field_name(name.as_slice()) {
        return Ok(None);
    }
    if !is_field_desc(alloc, desc)? {
        return Ok(None);
    }
    Ok(Some(MemberHead {
        flags,
        name: name.copy()?,
        desc: desc.copy()?,
        sizes: None,
    }))
}

fn field_in(alloc: Global, words: &[Name]) -> Result<Option<MemberHead>, Memory>
    ensures { IfOk result (λ o. option_map member_of o ≡ field_in words.now) }
{
    match words {
        [_, flags, name, desc] => field_by(alloc, flags, name, desc),
        _ => Ok(None),
    }
}

/// The sizes of a code by its words; no words are no code.
fn sizes_in(words: &[Name]) -> Option<Option<Sizes>>
    ensures { option_map code_with result ≡ code_in words.now }
{
    match words {
        [] => Some(None),
        [first, max_stack, second, max_locals] if says(first, "stack") && says(second, "locals") =>
            {
                Some(Some(Sizes {
                    max_stack: u2(max_stack)?,
                    max_locals: u2(max_locals)?,
                }))
            }
        _ => None,
    }
}

fn method_by(
    alloc: Global,
    flags: &Name,
    name: &Name,
    desc: &Name,
    sizes: Option<Sizes>,
) -> Result<Option<MemberHead>, Memory>
    ensures { IfOk result (λ o.
        option_map member_of o ≡ method_by flags.now name.now desc.now (code_with sizes)) }
{
    let Some(flags) = u2(flags) else {
        return Ok(None);
    };
    if !is_method_name(name.as_slice()) {
        return Ok(None);
    }
    if !is_method_desc(alloc, desc)? {
        return Ok(None);
    }
    Ok(Some(MemberHead {
        flags,
        name: name.copy()?,
        desc: desc.copy()?,
        sizes,
    }))
}

fn method_in(alloc: Global, words: &[Name]) -> Result<Option<MemberHead>, Memory>
    ensures { IfOk result (λ o. option_map member_of o ≡ method_in words.now) }
{
    match words {
        [_, flags, name, desc, sizes @ ..] => match sizes_in(sizes) {
            Some(sizes) => method_by(alloc, flags, name, desc, sizes),
            None => Ok(None),
        },
        _ => Ok(None),
    }
}

/// A code of these sizes without lines.
fn sized(alloc: Global, sizes: Sizes) -> StatedCode
    ensures { result ≡ sized sizes }
{
    StatedCode {
        max_stack: sizes.max_stack,
        max_locals: sizes.max_locals,
        insns: Seq::new(alloc),
        rows: Seq::new(alloc),
        lines: Seq::new(alloc),
        frames: Seq::new(alloc),
    }
}

/// Where the lines of a member stand.
#[derive(Clone, Copy, PartialEq, Eq)]
enum Stage {
    /// Before its code.
    Before,
    Inside,
    /// Behind its code, among notes.
    Behind,
}

/// What the lines of a method with code have stated so far.
#[derive(Drop)]
struct Progress {
    code: StatedCode,
    notes: Seq<StatedNote>,
    stage: Stage,
}

/// Adds what a line of a code states. Each of these calls answers whether the line is right.
fn code_step(
    alloc: Global,
    labels: &Labels,
    code: &mut StatedCode,
    line: &Line,
) -> Result<bool, Memory>
    ensures { IfOk result (λ ok. given_if ok code.new ≡ code_step labels.now code.old line.now) }
{
    match line_kind(line) {
        LineKind::LineNumber => add_line(labels, code, line),
        LineKind::Frame => add_frame(alloc, labels, code, line),
        LineKind::Handler => add_row(alloc, labels, code, line),
        LineKind::Instruction => add_insn(alloc, labels, code, line),
        LineKind::Label => is_first_label(alloc, labels, line),
        _ => Ok(false),
    }
}

/// Whether notes stand here before the code or behind it.
fn noting(stage: Stage) -> Stage
    ensures { result ≡ noting stage }
{
    match stage {
        Stage::Before => Stage::Before,
        Stage::Inside | Stage::Behind => Stage::Behind,
    }
}

fn add_note(alloc: Global, progress: &mut Progress, line: &Line) -> Result<bool, Memory>
    ensures { IfOk result (λ ok. given_if ok progress.new ≡ noted progress.old line.now) }
{
    let Some(note) = note_in(alloc, line.words.as_slice())? else {
        return Ok(false);
    };
    progress.notes.push(note)?;
    progress.stage = noting(progress.stage);
    Ok(true)
}

fn add_code(
    alloc: Global,
    labels: &Labels,
    progress: &mut Progress,
    line: &Line,
) -> Result<bool, Memory>
    ensures { IfOk result (λ ok.
        given_if ok progress.new ≡ coded labels.now progress.old line.now) }
{
    if progress.stage == Stage::Behind || !code_step(alloc, labels, &mut progress.code, line)? {
        return Ok(false);
    }
    progress.stage = Stage::Inside;
    Ok(true)
}

/// Adds what a line of a method with code states.
fn body_step(
    alloc: Global,
    labels: &Labels,
    progress: &mut Progress,
    line: &Line,
) -> Result<bool, Memory>
    ensures { IfOk result (λ ok.
        given_if ok progress.new ≡ body_step labels.now progress.old line.now) }
{
    if line_kind(line) == LineKind::Note {
        add_note(alloc, progress, line)
    } else {
        add_code(alloc, labels, progress, line)
    }
}

/// The lines of a method with a code of these sizes.
fn body_of(
    alloc: Global,
    labels: &Labels,
    sizes: Sizes,
    lines: &[Line],
) -> Result<Progress, AsmFault>
    ensures { Gives asm_fault.Memory (λ x. x)
        (body_from labels.now (beginning (sized sizes)) lines.now) result }
{
    let mut progress = Progress {
        code: sized(alloc, sizes),
        notes: Seq::new(alloc),
        stage: Stage::Before,
    };
    for line in lines {
        if !body_step(alloc, labels, &mut progress, line)? {
            return Err(AsmFault::Line { line: line.number });
        }
    }
    Ok(progress)
}

/// A method with code, which has an instruction.
fn code_of(alloc: Global, number: u64, sizes: Sizes, lines: &[Line]) -> Result<Progress, AsmFault>
    ensures { Gives asm_fault.Memory (λ progress. progress) (code_of number (sized sizes) lines.now)
        result }
{
    let labels = labels_of(alloc, lines)?;
    if labels.total == 0 {
        return Err(AsmFault::Line { line: number });
    }
    body_of(alloc, &labels, sizes, lines)
}

fn note_of(alloc: Global, line: &Line) -> Result<Option<StatedNote>, Memory>
    ensures { IfOk result (λ o. o ≡ note_of line.now) }
{
    if line_kind(line) == LineKind::Note {
        note_in(alloc, line.words.as_slice())
    } else {
        Ok(None)
    }
}

/// The lines of a member without code, which are notes.
fn notes_of(alloc: Global, lines: &[Line]) -> Result<Seq<StatedNote>, AsmFault>
    ensures { Gives asm_fault.Memory (λ notes. notes) (notes_of lines.now) result }
{
    let mut notes = Seq::new(alloc);
    for line in lines {
        match note_of(alloc, line)? {
            Some(note) => notes.push(note)?,
            None => return Err(AsmFault::Line { line: line.number }),
        }
    }
    Ok(notes)
}

/// A field by its line and the lines behind it.
pub fn field_of(alloc: Global, first: &Line, lines: &[Line]) -> Result<StatedMember, AsmFault>
    ensures { Gives asm_fault.Memory (λ member. member) (field_of first.now lines.now) result }
{
    let Some(head) = field_in(alloc, first.words.as_slice())? else {
        return Err(AsmFault::Line { line: first.number });
    };
    let notes = notes_of(alloc, lines)?;
    Ok(with_parts(head, None, notes))
}

/// A method by its line and the lines behind it.
pub fn method_of(alloc: Global, first: &Line, lines: &[Line]) -> Result<StatedMember, AsmFault>
    ensures { Gives asm_fault.Memory (λ member. member) (method_of first.now lines.now) result }
{
    let Some(head) = method_in(alloc, first.words.as_slice())? else {
        return Err(AsmFault::Line { line: first.number });
    };
    match head.sizes {
        None => {
            let notes = notes_of(alloc, lines)?;
            Ok(with_parts(head, None, notes))
        }
        Some(sizes) => {
            let Progress { code, notes, .. } = code_of(alloc, first.number, sizes, lines)?;
            Ok(with_parts(head, Some(code), notes))
        }
    }
}

/// A member of which all is stated.
fn with_parts(head: MemberHead, code: Option<StatedCode>, notes: Seq<StatedNote>) -> StatedMember
    ensures { result ≡ record (member_of head) { code = code; notes = notes } }
{
    StatedMember {
        flags: head.flags,
        name: head.name,
        desc: head.desc,
        code,
        notes,
    }
}
