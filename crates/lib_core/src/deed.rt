//! What native methods answer.

use class_model::{Name, Seq};
use program_rules::{Fault, Making, Value};

/// What becomes of what an object keeps.
#[derive(Drop)]
pub enum Change {
    SetText(Name),
    AddText(Name),
    SetItems(Seq<Value>),
    AddItems(Seq<Value>),
    /// At a place.
    InsertItem(u32, Value),
    SetItem(u64, Value),
    CutItem(u32),
    /// The three values of an entry, from a place on.
    CutEntry(u64),
    SetValues(Seq<Value>),
}

/// What is to be done for a call of a native method.
#[derive(Drop)]
pub enum Deed {
    /// Nothing but to give this.
    Gives(Option<Value>),
    /// The object of a number is changed and takes so many words more; then this is given.
    Changes(u32, Change, u64, Option<Value>),
    /// A new object of a class, with a text and values in it, of one word and so many more.
    Makes(Making, Name, Seq<Value>, u64),
    /// The one object of a class for a number.
    Boxes(Making, Value),
    /// A new array of these chars.
    MakesChars(Name),
    /// The one object that stands for a class.
    GivesClass(Name),
    /// This, where the object of a number is of a class or of one below it, else the exception.
    GivesWithin(u32, Name, Value, Fault),
    Throws(Fault),
    /// For other arguments there is no row.
    NoDeed,
}
