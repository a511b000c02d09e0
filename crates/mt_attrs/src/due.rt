//! What is still due while the tokens of an annotation are read.

ghost use Rattle.std.specs.Prelude.{◌≡◌, ◌<◌, [], ◌∷◌, OnOk, IfSome, IfNone};
ghost use Rattle.mt_attrs.specs.Notes.{with_due, less_one, due_behind, next_due};

use class_model::{Memory, Token};
use std::alloc::Global;
use std::marker::Model;

/// An annotation or an array that is open: so many of its items are still due, each with its name
/// in front where `named` says so, and so many more annotations may be opened in it.
#[derive(Clone, Copy)]
pub struct Due {
    pub named: bool,
    pub left: u16,
    pub depth: u8,
}

/// All that is still due. Contracts see it with the innermost first.
#[derive(Drop)]
pub struct Dues {
    stack: Vec<Due>,
}

impl Model for Dues {
    ghost use Rattle.std.specs.Prelude.{List, reverse};
    ghost use Rattle.mt_attrs.specs.declared.due.Due.{Due};

    ghost Value = { List Due };

    ghost view = { λ d. reverse d.stack.items };
}

impl Dues {
    /// Nothing is due.
    pub fn new(alloc: Global) -> Dues
        ensures { result ≡ [] }
    {
        Dues {
            stack: Vec::new(alloc),
        }
    }

    /// Takes the innermost off.
    pub fn pop(&mut self) -> Option<Due>
        ensures some { IfSome result (λ due. self.old ≡ due ∷ self.new) }
        ensures none { IfNone result (self.old ≡ []) }
    {
        self.stack.pop()
    }

    fn push(&mut self, due: Due) -> Result<(), Memory>
        ensures { OnOk result (self.new ≡ due ∷ self.old) }
    {
        self.stack.push(due)?;
        Ok(())
    }

    /// Puts one in front, unless it has none left.
    pub fn put(&mut self, due: Due) -> Result<(), Memory>
        ensures { OnOk result (self.new ≡ with_due due self.old) }
    {
        if due.left == 0 {
            return Ok(());
        }
        self.push(due)
    }

    /// Puts what is due behind a token in front of what was due around it, where so many more
    /// annotations may be opened.
    fn put_behind(&mut self, token: Token, depth: u8) -> Result<(), Memory>
        ensures { OnOk result (self.new ≡ due_behind token depth self.old) }
    {
        match token {
            Token::Name(_) => self.push(Due {
                named: false,
                left: 1,
                depth,
            }),
            Token::Inner(_, count) => self.put(Due {
                named: true,
                left: count,
                depth: depth.saturating_sub(1),
            }),
            Token::Many(count) => self.put(Due {
                named: false,
                left: count,
                depth,
            }),
            Token::Plain(_, _) | Token::Enum(_, _) | Token::Class(_) => Ok(()),
        }
    }

    /// Goes on behind a token that was the next one due.
    pub fn go_on(&mut self, due: Due, token: Token) -> Result<(), Memory>
        ensures { OnOk result (self.new ≡ next_due due self.old token) }
    {
        self.put(Due {
            named: due.named,
            left: due.left.saturating_sub(1),
            depth: due.depth,
        })?;
        self.put_behind(token, due.depth)
    }
}
