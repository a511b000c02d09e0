//! The lines of a text and the words of a line.

ghost use Rattle.std.specs.Prelude.{◌≡◌, ◌++◌, ◌∷◌, [], ◌==◌, IfOk, OnOk, length};
ghost use Rattle.std.specs.Char.Escape.{encode_utf16};
ghost use Rattle.std.specs.List.{flat_map};
ghost use Rattle.asm_words.specs.Lines.{units_in, pieces, words_of, is_passed, line_of, lines_from};

use class_model::{Memory, Name, Seq};
use std::alloc::Global;

const LINE_FEED: u8 = b'\n';

const SPACE: u16 = b' ' as u16;

const HASH: u16 = b'#' as u16;

/// A line that is not passed over, by its number. One that is not UTF-8 has no words.
#[derive(Drop)]
pub struct Line {
    pub number: u64,
    pub text: Name,
    pub words: Seq<Name>,
}

fn push_char(units: &mut Name, character: char) -> Result<(), Memory>
    ensures { OnOk result (units.new ≡ units.old ++ encode_utf16 character) }
{
    let mut pair = [0; 2];
    units.extend_from_slice(character.encode_utf16(&mut pair))
}

fn push_chars(units: &mut Name, characters: &[char]) -> Result<(), Memory>
    ensures { OnOk result (units.new ≡ units.old ++ flat_map encode_utf16 characters.now) }
{
    for character in characters {
        push_char(units, *character)?;
    }
    Ok(())
}

/// The code units of bytes that are UTF-8.
fn units_in(alloc: Global, bytes: &[u8]) -> Result<Option<Name>, Memory>
    ensures { IfOk result (λ o. o ≡ units_in bytes.now) }
{
    let Ok(text) = str::from_utf8(bytes) else {
        return Ok(None);
    };
    let characters: Vec<char> = text.chars().collect(alloc)?;
    let mut units = Seq::new(alloc);
    push_chars(&mut units, characters.as_slice())?;
    Ok(Some(units))
}

/// The lines of a text, each without its line feed.
pub fn lines_in(alloc: Global, text: &[u8]) -> Result<Seq<Seq<u8>>, Memory>
    ensures { IfOk result (λ lines. lines ≡ pieces 10 text.now) }
{
    let mut lines = Seq::new(alloc);
    let mut line = Seq::new(alloc);
    for byte in text {
        if *byte == LINE_FEED {
            lines.push(line)?;
            line = Seq::new(alloc);
        } else {
            line.push(*byte)?;
        }
    }
    if !line.is_empty() {
        lines.push(line)?;
    }
    Ok(lines)
}

/// The words of a line, which spaces part.
fn words_of(alloc: Global, units: &[u16]) -> Result<Seq<Name>, Memory>
    ensures { IfOk result (λ words. words ≡ words_of units.now) }
{
    let mut words = Seq::new(alloc);
    let mut word = Seq::new(alloc);
    for unit in units {
        if *unit == SPACE {
            if !word.is_empty() {
                words.push(word)?;
                word = Seq::new(alloc);
            }
        } else {
            word.push(*unit)?;
        }
    }
    if !word.is_empty() {
        words.push(word)?;
    }
    Ok(words)
}

/// Whether a line is blank or a comment.
fn is_passed(units: &[u16], words: &Seq<Name>) -> bool
    requires { words.now ≡ words_of units.now }
    ensures { result ≡ is_passed units.now }
{
    words.is_empty() || units[0] == HASH
}

fn line_of(alloc: Global, number: u64, bytes: &[u8]) -> Result<Option<Line>, Memory>
    ensures { IfOk result (λ o. o ≡ line_of number bytes.now) }
{
    let Some(text) = units_in(alloc, bytes)? else {
        return Ok(Some(Line {
            number,
            text: Seq::new(alloc),
            words: Seq::new(alloc),
        }));
    };
    let words = words_of(alloc, text.as_slice())?;
    if is_passed(text.as_slice(), &words) {
        return Ok(None);
    }
    Ok(Some(Line {
        number,
        text,
        words,
    }))
}

/// The lines that are not passed over.
pub fn lines_of(alloc: Global, pieces: &[Seq<u8>]) -> Result<Seq<Line>, Memory>
    ensures { IfOk result (λ lines. lines ≡ lines_from 1 pieces.now) }
{
    let mut lines = Seq::new(alloc);
    for (index, bytes) in pieces.iter().enumerate() {
        if let Some(line) = line_of(alloc, index as u64 + 1, bytes.as_slice())? {
            lines.push(line)?;
        }
    }
    Ok(lines)
}
