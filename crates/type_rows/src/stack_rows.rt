//! What moves words on the stack (JVMS 6.5, `pop` to `swap`).
#![tactic(auto, unfolding(type_rules::specs::Rows::row))]

ghost use Rattle.std.specs.Prelude.{◌≡◌, ◌++◌, IfOk, IfSome, IfNone, OnOk};
ghost use Rattle.program_rules.specs.Instructions.{Pop, Pop2, Dup, DupX1, DupX2, Dup2, Dup2X1, Dup2X2, Swap};
ghost use Rattle.type_rows.specs.Answers.{RowIs};
ghost use Rattle.type_rows.specs.Words.{TakesWords, TakesNoWords, word_slots, DropsWords, RowBy, gives_twice, gives_below};

use crate::answer::{Answer, give};
use class_model::Memory;
use vframes::{Frame, SlotType, Stack, Two};

/// How many words an instruction moves at once.
#[derive(Clone, Copy)]
pub enum Count {
    One,
    Two,
}

/// One word of a stack, or two.
#[derive(Clone, Copy)]
pub enum Words {
    One(SlotType),
    Two(Two),
}

// Takes so many words off the top.
fn take(stack: &mut Stack, count: Count) -> Option<Words>
    ensures some { IfSome result (λ ts. TakesWords count stack.old ts stack.new) }
    ensures none { IfNone result (TakesNoWords count stack.old) }
{
    match count {
        Count::One => {
            let Some(t) = stack.take_word() else {
                return None;
            };
            Some(Words::One(t))
        }
        Count::Two => {
            let Some(ts) = stack.take_two() else {
                return None;
            };
            Some(Words::Two(ts))
        }
    }
}

// Puts words on the top.
fn put(stack: &mut Stack, words: Words) -> Result<(), Memory>
    ensures { OnOk result (stack.new ≡ word_slots words ++ stack.old) }
{
    match words {
        Words::One(t) => stack.push(t),
        Words::Two(ts) => stack.push_two(ts),
    }
}

// So many words are gone.
fn drop_words(f: &mut Frame, count: Count) -> Answer
    ensures { DropsWords count f.old result f.new }
{
    let Some(_) = take(&mut f.stack, count) else {
        return Answer::Fails(7);
    };
    Answer::Falls
}

// The uppermost words, so many, stand there twice.
fn give_twice(f: &mut Frame, room: u16, count: Count) -> Result<Answer, Memory>
    ensures { IfOk result (λ a. RowBy (gives_twice count) room f.old a f.new) }
{
    let Some(ts) = take(&mut f.stack, count) else {
        return Ok(Answer::Fails(7));
    };
    put(&mut f.stack, ts)?;
    put(&mut f.stack, ts)?;
    Ok(give(f, room))
}

// The uppermost words, so many, stand also below the next ones.
fn give_below(f: &mut Frame, room: u16, count: Count, next: Count) -> Result<Answer, Memory>
    ensures { IfOk result (λ a. RowBy (gives_below count next) room f.old a f.new) }
{
    let Some(ts) = take(&mut f.stack, count) else {
        return Ok(Answer::Fails(7));
    };
    let Some(us) = take(&mut f.stack, next) else {
        return Ok(Answer::Fails(7));
    };
    put(&mut f.stack, ts)?;
    put(&mut f.stack, us)?;
    put(&mut f.stack, ts)?;
    Ok(give(f, room))
}

pub fn pop(f: &mut Frame, room: u16) -> Answer
    ensures { RowIs Pop room f.old result f.new }
{
    drop_words(f, Count::One)
}

pub fn pop2(f: &mut Frame, room: u16) -> Answer
    ensures { RowIs Pop2 room f.old result f.new }
{
    drop_words(f, Count::Two)
}

pub fn dup(f: &mut Frame, room: u16) -> Result<Answer, Memory>
    ensures { IfOk result (λ a. RowIs Dup room f.old a f.new) }
{
    give_twice(f, room, Count::One)
}

pub fn dup_x1(f: &mut Frame, room: u16) -> Result<Answer, Memory>
    ensures { IfOk result (λ a. RowIs DupX1 room f.old a f.new) }
{
    give_below(f, room, Count::One, Count::One)
}

pub fn dup_x2(f: &mut Frame, room: u16) -> Result<Answer, Memory>
    ensures { IfOk result (λ a. RowIs DupX2 room f.old a f.new) }
{
    give_below(f, room, Count::One, Count::Two)
}

pub fn dup2(f: &mut Frame, room: u16) -> Result<Answer, Memory>
    ensures { IfOk result (λ a. RowIs Dup2 room f.old a f.new) }
{
    give_twice(f, room, Count::Two)
}

pub fn dup2_x1(f: &mut Frame, room: u16) -> Result<Answer, Memory>
    ensures { IfOk result (λ a. RowIs Dup2X1 room f.old a f.new) }
{
    give_below(f, room, Count::Two, Count::One)
}

pub fn dup2_x2(f: &mut Frame, room: u16) -> Result<Answer, Memory>
    ensures { IfOk result (λ a. RowIs Dup2X2 room f.old a f.new) }
{
    give_below(f, room, Count::Two, Count::Two)
}

pub fn swap(f: &mut Frame, room: u16) -> Result<Answer, Memory>
    ensures { IfOk result (λ a. RowIs Swap room f.old a f.new) }
{
    let Some(t) = f.stack.take_word() else {
        return Ok(Answer::Fails(7));
    };
    let Some(u) = f.stack.take_word() else {
        return Ok(Answer::Fails(7));
    };
    f.stack.push(t)?;
    f.stack.push(u)?;
    Ok(give(f, room))
}
