//! The exception that is to leave a test: the element `expected` of JUnit 4's annotation.

ghost use Rattle.std.specs.Prelude.{◌≡◌, ◌++◌, IfOk, OnOk};
ghost use Rattle.std.specs.List.{flat_map};
ghost use Rattle.class_model.specs.Pool.{text_of};
ghost use Rattle.test_discovery.specs.Annotations.{test_type};
ghost use Rattle.test_discovery.specs.Expected.{class_named_in, class_in, said_by, said_by_pair};
ghost use Rattle.test_discovery.specs.Expected.{said_of, said_among, said_at, first_said};
ghost use Rattle.test_discovery.specs.Expected.{first_expected, expected_class};

use crate::annotations::names_text;
use class_link::names::without_last;
use class_model::{Attr, Body, Const, Memory, Name, Note, Seq, Token};
use mt_pool::text_of;
use std::alloc::Global;

/// What an element `expected` says.
#[derive(Drop)]
pub enum Expected {
    /// Nothing that can leave a test.
    NoClass,
    /// This class.
    Named(Name),
}

// What a class element's descriptor names: `L`, a class's name and `;`.
fn class_named_in(alloc: Global, desc: &[u16]) -> Result<Expected, Memory>
    ensures { IfOk result (λ said. said ≡ class_named_in desc.now) }
{
    match desc {
        [76, rest @ ..] => Ok(Expected::Named(Name::from_slice(alloc, without_last(rest))?)),
        _ => Ok(Expected::NoClass),
    }
}

fn class_in(alloc: Global, pool: &[Const], index: u16) -> Result<Expected, Memory>
    ensures { IfOk result (λ said. said ≡ class_in (text_of pool.now index)) }
{
    match text_of(pool, index) {
        Some(desc) => class_named_in(alloc, desc.as_slice()),
        None => Ok(Expected::NoClass),
    }
}

fn said_by(alloc: Global, pool: &[Const], value: Token) -> Result<Expected, Memory>
    ensures { IfOk result (λ said. said ≡ said_by pool.now value) }
{
    match value {
        Token::Class(desc) => class_in(alloc, pool, desc),
        _ => Ok(Expected::NoClass),
    }
}

fn push_said_by_pair(
    alloc: Global,
    said: &mut Seq<Expected>,
    pool: &[Const],
    pair: (u16, Token),
) -> Result<(), Memory>
    ensures { OnOk result (said.new ≡ said.old ++ said_by_pair pool.now pair) }
{
    if names_text(pool, pair.0, "expected") {
        said.push(said_by(alloc, pool, pair.1)?)?;
    }
    Ok(())
}

// What the own elements of an annotation say.
fn push_said_in(
    alloc: Global,
    said: &mut Seq<Expected>,
    pool: &[Const],
    pairs: &[(u16, Token)],
) -> Result<(), Memory>
    ensures { OnOk result (said.new ≡ said.old ++ flat_map (said_by_pair pool.now) pairs.now) }
{
    for pair in pairs {
        push_said_by_pair(alloc, said, pool, *pair)?;
    }
    Ok(())
}

fn push_said_of(
    alloc: Global,
    said: &mut Seq<Expected>,
    pool: &[Const],
    note: &Note,
) -> Result<(), Memory>
    ensures { OnOk result (said.new ≡ said.old ++ said_of pool.now test_type note.now) }
{
    if names_text(pool, note.kind, "Lorg/junit/Test;") {
        push_said_in(alloc, said, pool, note.own_elements()?.as_slice())?;
    }
    Ok(())
}

fn push_said_in_notes(
    alloc: Global,
    said: &mut Seq<Expected>,
    pool: &[Const],
    notes: &[Note],
) -> Result<(), Memory>
    ensures { OnOk result (said.new ≡ said.old ++ said_among pool.now test_type notes.now) }
{
    for note in notes {
        push_said_of(alloc, said, pool, note)?;
    }
    Ok(())
}

fn push_said_at(
    alloc: Global,
    said: &mut Seq<Expected>,
    pool: &[Const],
    attr: &Attr,
) -> Result<(), Memory>
    ensures { OnOk result (said.new ≡ said.old ++ said_at pool.now test_type attr.now) }
{
    match &attr.body {
        Body::Notes(notes) => push_said_in_notes(alloc, said, pool, notes.as_slice()),
        _ => Ok(()),
    }
}

fn all_said(alloc: Global, pool: &[Const], attrs: &[Attr]) -> Result<Seq<Expected>, Memory>
    ensures { IfOk result (λ said. said ≡ flat_map (said_at pool.now test_type) attrs.now) }
{
    let mut said = Seq::new(alloc);
    for attr in attrs {
        push_said_at(alloc, &mut said, pool, attr)?;
    }
    Ok(said)
}

/// The first of these.
fn first_of(said: Seq<Expected>) -> Option<Expected>
    ensures { result ≡ first_said said }
{
    said.into_vec().into_iter().next()
}

/// What the first element `expected` says, if there is one.
pub fn expected_of(
    alloc: Global,
    pool: &[Const],
    attrs: &[Attr],
) -> Result<Option<Expected>, Memory>
    ensures { IfOk result (λ said. said ≡ first_expected pool.now test_type attrs.now) }
{
    Ok(first_of(all_said(alloc, pool, attrs)?))
}

/// The class of the exception that is to leave a test, if one is.
pub fn expected_class(expected: &Option<Expected>) -> Result<Option<Name>, Memory>
    ensures { IfOk result (λ class. class ≡ expected_class expected.now) }
{
    match expected {
        Some(Expected::Named(name)) => Ok(Some(name.copy()?)),
        _ => Ok(None),
    }
}
