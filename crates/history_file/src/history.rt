//! Records by number, with the names and the classes that they name.

ghost use Rattle.std.specs.Prelude.{◌≡◌, [], map};
ghost use Rattle.history_file.specs.Rows.{IsNumbered};

use crate::row::Row;
use class_model::Seq;
use std::alloc::Global;
use std::marker::Model;

/// The records of a history. Names and classes are slices of bytes that are kept elsewhere, as of
/// the file that was read, each once; so names and classes are equal where their numbers are.
#[derive(Drop)]
pub struct History<'a> {
    texts: Seq<&'a [u8]>,
    classes: Seq<&'a [u8]>,
    rows: Seq<Row>,
}

impl<'a> Model for History<'a> {
    ghost use Rattle.std.specs.Prelude.{map};
    ghost use Rattle.history_file.specs.Rows.{Numbered, IsNumbered};

    ghost Value = { Numbered };

    ghost view = { λ h. record {
      texts = map (λ s. s.now) h.texts;
      classes = map (λ s. s.now) h.classes;
      rows = h.rows;
    } };

    ghost invariant = { λ h. IsNumbered (record {
      texts = map (λ s. s.now) h.texts;
      classes = map (λ s. s.now) h.classes;
      rows = h.rows;
    }) };
}

impl<'a> History<'a> {
    /// No records.
    pub fn new(alloc: Global) -> History<'a>
        ensures { result ≡ record { texts = []; classes = []; rows = [] } }
    {
        History {
            texts: Seq::new(alloc),
            classes: Seq::new(alloc),
            rows: Seq::new(alloc),
        }
    }

    /// The records that these are. It takes no memory.
    pub fn of_parts(texts: Seq<&'a [u8]>, classes: Seq<&'a [u8]>, rows: Seq<Row>) -> History<'a>
        requires { IsNumbered (record {
          texts = map (λ s. s.now) texts;
          classes = map (λ s. s.now) classes;
          rows = rows;
        }) }
        ensures { result ≡ record {
          texts = map (λ s. s.now) texts.entry;
          classes = map (λ s. s.now) classes.entry;
          rows = rows;
        } }
    {
        History {
            texts,
            classes,
            rows,
        }
    }

    /// The names in modified UTF-8; the first has number 0. All are names, and differ.
    pub fn texts(&self) -> &[&'a [u8]]
        ensures texts { map (λ s. s.now) result.now ≡ self.now.texts }
        ensures known { IsNumbered self.now }
    {
        self.texts.as_slice()
    }

    /// The class files; the first has number 1. They differ.
    pub fn classes(&self) -> &[&'a [u8]]
        ensures { map (λ s. s.now) result.now ≡ self.now.classes }
    {
        self.classes.as_slice()
    }

    /// The records, in the order of the file.
    pub fn rows(&self) -> &[Row]
        ensures { result.now ≡ self.now.rows }
    {
        self.rows.as_slice()
    }
}
