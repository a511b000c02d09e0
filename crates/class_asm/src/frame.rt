//! Frames and their verification types.

ghost use Rattle.std.specs.Prelude.{◌≡◌, position, length, IfOk, IfSome, ◌<◌};
ghost use Rattle.asm_words.specs.Words.{says};
ghost use Rattle.class_asm.specs.Frames.{known_item, object_item, item_of, item_at, new_item, items_in, items_from, one_item, few_items, full_shape, chop_shape, shape_by, shape_of, slash};

use asm_words::{Labels, StatedItem, StatedShape, class_in, says, start_in, u1};
use class_model::{Memory, Name, Seq, VItem};
use std::alloc::Global;

fn known_item(word: &Name) -> Option<VItem>
    ensures { result ≡ known_item word.now }
{
    if says(word, "int") {
        Some(VItem::Integer)
    } else if says(word, "long") {
        Some(VItem::Long)
    } else if says(word, "top") {
        Some(VItem::Top)
    } else if says(word, "null") {
        Some(VItem::Null)
    } else if says(word, "uthis") {
        Some(VItem::UninitializedThis)
    } else {
        None
    }
}

/// `new` and `/` stand for no type.
fn object_item(alloc: Global, word: &Name) -> Result<Option<StatedItem>, Memory>
    ensures { IfOk result (λ o. o ≡ object_item word.now) }
{
    if says(word, "new") || says(word, "/") {
        return Ok(None);
    }
    match class_in(alloc, word)? {
        Some(name) => Ok(Some(StatedItem::Object(name))),
        None => Ok(None),
    }
}

/// The type that a word states.
fn item_of(alloc: Global, word: &Name) -> Result<Option<StatedItem>, Memory>
    ensures { IfOk result (λ o. o ≡ item_of word.now) }
{
    match known_item(word) {
        Some(item) => Ok(Some(StatedItem::Done(item))),
        None => object_item(alloc, word),
    }
}

/// What the `new` at a label made.
fn new_item(labels: &Labels, label: &Name) -> Option<StatedItem>
    ensures { result ≡ new_item labels.now label.now }
{
    let start = start_in(labels, label)?;
    Some(StatedItem::Done(VItem::Uninitialized(start)))
}

/// The type that a word states, which is a label where `new` stood before it.
fn item_at(
    alloc: Global,
    labels: &Labels,
    is_new: bool,
    word: &Name,
) -> Result<Option<StatedItem>, Memory>
    ensures { IfOk result (λ o. o ≡ item_at labels.now is_new word.now) }
{
    if is_new {
        Ok(new_item(labels, word))
    } else {
        item_of(alloc, word)
    }
}

/// The types that words state.
fn items_in(
    alloc: Global,
    labels: &Labels,
    words: &[Name],
) -> Result<Option<Seq<StatedItem>>, Memory>
    ensures { IfOk result (λ o. o ≡ items_in labels.now words.now) }
{
    let mut items = Seq::new(alloc);
    let mut is_new = false;
    for word in words {
        if !is_new && says(word, "new") {
            is_new = true;
        } else {
            match item_at(alloc, labels, is_new, word)? {
                Some(item) => items.push(item)?,
                None => return Ok(None),
            }
            is_new = false;
        }
    }
    if is_new {
        return Ok(None);
    }
    Ok(Some(items))
}

/// The one type that words state.
fn one_item(alloc: Global, labels: &Labels, words: &[Name]) -> Result<Option<StatedItem>, Memory>
    ensures { IfOk result (λ o. o ≡ one_item labels.now words.now) }
{
    match words {
        [word] => item_of(alloc, word),
        [keyword, label] if says(keyword, "new") => Ok(new_item(labels, label)),
        _ => Ok(None),
    }
}

/// One to three types.
fn few_items(
    alloc: Global,
    labels: &Labels,
    words: &[Name],
) -> Result<Option<Seq<StatedItem>>, Memory>
    ensures { IfOk result (λ o. o ≡ few_items labels.now words.now) }
{
    match items_in(alloc, labels, words)? {
        Some(items) if 0 < items.len() && items.len() <= 3 => Ok(Some(items)),
        _ => Ok(None),
    }
}

fn slash(words: &[Name]) -> Option<usize>
    ensures first { result ≡ slash words.now }
    ensures within { IfSome result (λ place. place < length words.now) }
{
    words.iter().position(|word| says(word, "/"))
}

/// Locals and a stack, which a slash parts.
fn full_shape(alloc: Global, labels: &Labels, words: &[Name]) -> Result<Option<StatedShape>, Memory>
    ensures { IfOk result (λ o. o ≡ full_shape labels.now words.now) }
{
    let Some(place) = slash(words) else {
        return Ok(None);
    };
    let Some(locals) = items_in(alloc, labels, &words[..place])? else {
        return Ok(None);
    };
    match items_in(alloc, labels, &words[place + 1..])? {
        Some(stack) => Ok(Some(StatedShape::Full(locals, stack))),
        None => Ok(None),
    }
}

fn chop_shape(words: &[Name]) -> Option<StatedShape>
    ensures { result ≡ chop_shape words.now }
{
    let [word] = words else {
        return None;
    };
    let count = u1(word)?;
    if count == 0 || 3 < count {
        return None;
    }
    Some(StatedShape::Chop(count))
}

/// The shape of a frame by its keyword and the words behind that.
fn shape_by(
    alloc: Global,
    labels: &Labels,
    keyword: &Name,
    words: &[Name],
) -> Result<Option<StatedShape>, Memory>
    ensures { IfOk result (λ o. o ≡ shape_by labels.now keyword.now words.now) }
{
    if says(keyword, "same") {
        if words.is_empty() {
            return Ok(Some(StatedShape::Same));
        }
        return Ok(None);
    }
    if says(keyword, "one") {
        return match one_item(alloc, labels, words)? {
            Some(item) => Ok(Some(StatedShape::One(item))),
            None => Ok(None),
        };
    }
    if says(keyword, "chop") {
        return Ok(chop_shape(words));
    }
    if says(keyword, "append") {
        return match few_items(alloc, labels, words)? {
            Some(items) => Ok(Some(StatedShape::Append(items))),
            None => Ok(None),
        };
    }
    if says(keyword, "full") {
        return full_shape(alloc, labels, words);
    }
    Ok(None)
}

/// The shape of the frame that a line states.
pub fn shape_of(
    alloc: Global,
    labels: &Labels,
    words: &[Name],
) -> Result<Option<StatedShape>, Memory>
    ensures { IfOk result (λ o. o ≡ shape_of labels.now words.now) }
{
    match words {
        [_, keyword, words @ ..] => shape_by(alloc, labels, keyword, words),
        _ => Ok(None),
    }
}
