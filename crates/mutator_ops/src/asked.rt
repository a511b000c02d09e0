//! What the table asks of a method beside its instructions.

ghost use Rattle.std.specs.Prelude.{◌≡◌, option_copied};
ghost use Rattle.std.specs.List.{list_any};
ghost use Rattle.class_link.specs.Linking.{content_of};
ghost use Rattle.mutator_ops.specs.Calls.{is_void_call};
ghost use Rattle.mutator_ops.specs.Mutants.{is_not_null_text, is_not_null, has_not_null_in, has_not_null, asked_of};

use crate::pool::Pool;
use class_model::names::is_text;
use class_model::{Attr, Body, Const, Insn, Kind, Member, Name, Note};
use mt_pool::text_of;
use std::marker::Model;

/// `L`
const OBJECT: [u16; 1] = [76];

/// `/NotNull;`
const NOT_NULL: [u16; 9] = [47, 78, 111, 116, 78, 117, 108, 108, 59];

/// A method of a class.
#[derive(Drop)]
pub struct Asked<'a> {
    pool: &'a Pool<'a>,
    desc: u16,
    is_not_null: bool,
}

impl<'a> Model for Asked<'a> {
    ghost use Rattle.std.specs.Prelude.{option_and_then};
    ghost use Rattle.mutator_ops.specs.Calls.{type_of};
    ghost use Rattle.mutator_ops.specs.Table.{Asked};

    ghost Value = { Asked };

    ghost view = { λ a. record {
      pool = a.pool.now;
      gives = option_and_then (λ t. t.ret) (type_of a.pool.now a.desc);
      is_not_null = a.is_not_null;
    } };
}

// The descriptor of an annotation has the simple name NotNull.
fn is_not_null_text(desc: &Name) -> bool
    ensures { result ≡ is_not_null_text desc.now }
{
    let units = desc.as_slice();
    is_text(units, b"LNotNull;") || (units.starts_with(&OBJECT) && units.ends_with(&NOT_NULL))
}

fn is_not_null(pool: &[Const], note: &Note) -> bool
    ensures { result ≡ is_not_null pool.now note.now }
{
    match text_of(pool, note.kind) {
        Some(desc) => is_not_null_text(desc),
        None => false,
    }
}

fn has_not_null_among(pool: &[Const], notes: &[Note]) -> bool
    ensures { result ≡ list_any (is_not_null pool.now) notes.now }
{
    notes.iter().any(|note| is_not_null(pool, note))
}

fn has_not_null_in(pool: &[Const], attr: &Attr) -> bool
    ensures { result ≡ has_not_null_in pool.now (content_of attr.now) }
{
    match &attr.body {
        Body::Notes(notes) => has_not_null_among(pool, notes.as_slice()),
        _ => false,
    }
}

// An annotation of the simple name NotNull stands among the attributes.
fn has_not_null(pool: &[Const], attrs: &[Attr]) -> bool
    ensures { result ≡ has_not_null pool.now attrs.now }
{
    attrs.iter().any(|attr| has_not_null_in(pool, attr))
}

impl<'a> Asked<'a> {
    pub fn new(pool: &'a Pool<'a>, member: &Member) -> Asked<'a>
        ensures { result ≡ asked_of pool.entry.now member.now }
    {
        Asked {
            pool,
            desc: member.desc,
            is_not_null: has_not_null(pool.entries(), member.attrs.as_slice()),
        }
    }

    pub fn pool(&self) -> &Pool<'a>
        ensures { result.now ≡ self.now.pool }
    {
        self.pool
    }

    /// What the method gives.
    pub fn gives(&self) -> Option<&Kind>
        ensures { option_copied result ≡ self.now.gives }
    {
        self.pool.type_of(self.desc)?.ret.as_ref()
    }

    /// An annotation of the simple name NotNull stands at the method.
    pub fn is_not_null(&self) -> bool
        ensures { result ≡ self.now.is_not_null }
    {
        self.is_not_null
    }

    /// The instruction calls a method without a result that isn't `<init>`.
    pub fn is_void_call(&self, insn: &Insn) -> bool
        ensures { result ≡ is_void_call self.now.pool insn.now }
    {
        self.pool.is_void_call(insn)
    }
}
