//! Annotations, flat: what stands in one is a list of tokens, so however deep arrays stand in one
//! another, copying, comparing and dropping are loops.

ghost use Rattle.std.specs.Prelude.{◌≡◌, ◌+◌, ◌*◌, ◌≤◌, IfOk, None};
ghost use Rattle.class_model.specs.OwnElements.{opened_by, own_elements};

use crate::copies::Copied;
use crate::list::Seq;
use crate::memory::Memory;
use std::alloc::Global;

/// An annotation (JVMS 4.7.16): the index of its type, how many elements it has, and all that
/// stands in them, in the order of the file.
#[derive(Drop)]
pub struct Note {
    pub kind: u16,
    pub count: u16,
    pub tokens: Seq<Token>,
}

/// What stands in an annotation: the name of an element, or the front of an element's value (JVMS
/// 4.7.16.1). What stands in an annotation or an array comes right behind its token.
#[derive(Clone, Copy)]
pub enum Token {
    /// The index of an element's name. The value of the element is what comes next.
    Name(u16),
    /// A constant, by its tag and its index: one of `B C D F I J S Z s`.
    Plain(u8, u16),
    /// A constant of an enum, by the indices of its type and its name: tag `e`.
    Enum(u16, u16),
    /// A class, by the index of its descriptor: tag `c`.
    Class(u16),
    /// An annotation, by the index of its type and how many elements it has: tag `@`.
    Inner(u16, u16),
    /// An array, by how many values it has: tag `[`.
    Many(u16),
}

// How many tokens a token opens right behind it: a name and the front of a value for each element,
// the front of each value.
fn opened_by(token: Token) -> u128
    ensures value { result ≡ opened_by token }
    ensures small { result ≤ 131070 }
{
    match token {
        Token::Inner(_, count) => 2 * u128::from(count),
        Token::Many(count) => u128::from(count),
        Token::Name(_) | Token::Plain(_, _) | Token::Enum(_, _) | Token::Class(_) => 0,
    }
}

fn elements_among(alloc: Global, tokens: &[Token]) -> Result<Seq<(u16, Token)>, Memory>
    ensures { IfOk result (λ own. own ≡ own_elements None 0 tokens.now) }
{
    let mut own = Seq::new(alloc);
    let mut name = None;
    let mut due: u128 = 0;
    for token in tokens {
        if let Some(index) = name {
            own.push((index, *token))?;
            name = None;
            due = opened_by(*token);
        } else if due > 0 {
            due = due - 1 + opened_by(*token);
        } else if let Token::Name(index) = *token {
            name = Some(index);
        } else {
            return Ok(own);
        }
    }
    Ok(own)
}

impl Note {
    /// An equal value.
    pub fn copy(&self) -> Result<Note, Memory>
        ensures { IfOk result (λ c. c ≡ self.now) }
    {
        Ok(Note {
            kind: self.kind,
            count: self.count,
            tokens: self.tokens.copy()?,
        })
    }

    /// The annotation's own elements, none of one that stands in it: the index of each name, and
    /// the front of the value.
    pub fn own_elements(&self) -> Result<Seq<(u16, Token)>, Memory>
        ensures { IfOk result (λ own. own ≡ own_elements None 0 self.now.tokens) }
    {
        elements_among(self.tokens.allocator(), self.tokens.as_slice())
    }
}

impl Copied for Note {
    fn copied(&self) -> Result<Note, Memory> {
        self.copy()
    }
}

impl Copied for Token {
    fn copied(&self) -> Result<Token, Memory> {
        Ok(*self)
    }
}
