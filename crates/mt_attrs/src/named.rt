//! Indices of the constant pool, with what each may name.

ghost use Rattle.std.specs.Prelude.{◌≡◌};
ghost use Rattle.std.specs.Option.{option_copied};
ghost use Rattle.class_model.specs.Pool.{text_of};
ghost use Rattle.mt_insn.specs.Named.{names, is_class};
ghost use Rattle.mt_attrs.specs.Item.{ReadsPart};
ghost use Rattle.mt_attrs.specs.Named.{is_text, is_value, is_constant, is_caught, names_text, index_at, caught_at, type_at, result_at, Described, described_by};

use crate::fault::ItemFault;
use crate::item::u2;
use class_model::{CheckedPool, ClassFault, Const, DescFault, Name};
use mt_bytes::Cursor;

fn text_of<'a>(pool: &'a CheckedPool, index: u16) -> Option<&'a Name>
    ensures { option_copied result ≡ text_of pool.now index }
{
    match pool.entry(index) {
        Some(Const::Utf8(units)) => Some(units),
        _ => None,
    }
}

/// The index names this text.
pub fn names_text(pool: &CheckedPool, index: u16, name: &[u16]) -> bool
    ensures { result ≡ names_text pool.now index name.now }
{
    match text_of(pool, index) {
        Some(text) => text.as_slice() == name,
        None => false,
    }
}

fn is_text(pool: &CheckedPool, index: u16) -> bool
    ensures { result ≡ names is_text pool.now index }
{
    matches!(pool.entry(index), Some(Const::Utf8(_)))
}

fn is_class(pool: &CheckedPool, index: u16) -> bool
    ensures { result ≡ names is_class pool.now index }
{
    matches!(pool.entry(index), Some(Const::Class(_)))
}

/// The index names what a constant field may have.
fn is_value(pool: &CheckedPool, index: u16) -> bool
    ensures { result ≡ names is_value pool.now index }
{
    matches!(
        pool.entry(index),
        Some(
            Const::Integer(_) | Const::Float(_) | Const::Long(_) | Const::Double(_) | Const::Text(_)
        )
    )
}

/// The index names a constant of an annotation's element with this tag.
fn is_constant(pool: &CheckedPool, tag: u8, index: u16) -> bool
    ensures { result ≡ names (is_constant tag) pool.now index }
{
    match pool.entry(index) {
        Some(Const::Integer(_)) => tag == 66 || tag == 67 || tag == 73 || tag == 83 || tag == 90,
        Some(Const::Double(_)) => tag == 68,
        Some(Const::Float(_)) => tag == 70,
        Some(Const::Long(_)) => tag == 74,
        Some(Const::Utf8(_)) => tag == 115,
        _ => false,
    }
}

fn is_caught(pool: &CheckedPool, index: u16) -> bool
    ensures { result ≡ is_caught pool.now index }
{
    index == 0 || is_class(pool, index)
}

/// The text that an index at a place names has to be a field's descriptor without floats.
#[tactic(auto, using(crate::proofs::Described::described_ok, crate::proofs::Described::described_bad))]
fn described(pool: &CheckedPool, at: u64, index: u16) -> Result<(), ClassFault>
    ensures { Described at (described_by pool.now index) result }
{
    let Some((_, verdict)) = pool.text(index) else {
        return Err(ClassFault::BadIndex { at });
    };
    match verdict.field {
        Ok(()) => Ok(()),
        Err(DescFault::Float) => Err(ClassFault::FloatUsed { at }),
        Err(_) => Err(ClassFault::BadText { at }),
    }
}

/// The index of a text.
pub fn read_text(pool: &CheckedPool, cur: &mut Cursor) -> Result<u16, ItemFault>
    ensures { ReadsPart (index_at is_text pool.now) cur.old cur.new result }
{
    let at = cur.at();
    let index = u2(cur)?;
    if !is_text(pool, index) {
        return Err(ItemFault::Bad(ClassFault::BadIndex { at }));
    }
    Ok(index)
}

/// The index of a class.
pub fn read_class(pool: &CheckedPool, cur: &mut Cursor) -> Result<u16, ItemFault>
    ensures { ReadsPart (index_at is_class pool.now) cur.old cur.new result }
{
    let at = cur.at();
    let index = u2(cur)?;
    if !is_class(pool, index) {
        return Err(ItemFault::Bad(ClassFault::BadIndex { at }));
    }
    Ok(index)
}

/// The index of the value of a constant field.
pub fn read_value(pool: &CheckedPool, cur: &mut Cursor) -> Result<u16, ItemFault>
    ensures { ReadsPart (index_at is_value pool.now) cur.old cur.new result }
{
    let at = cur.at();
    let index = u2(cur)?;
    if !is_value(pool, index) {
        return Err(ItemFault::Bad(ClassFault::BadIndex { at }));
    }
    Ok(index)
}

/// The index of the constant of an annotation's element with this tag.
pub fn read_constant(pool: &CheckedPool, tag: u8, cur: &mut Cursor) -> Result<u16, ItemFault>
    ensures { ReadsPart (index_at (is_constant tag) pool.now) cur.old cur.new result }
{
    let at = cur.at();
    let index = u2(cur)?;
    if !is_constant(pool, tag, index) {
        return Err(ItemFault::Bad(ClassFault::BadIndex { at }));
    }
    Ok(index)
}

/// The index of the class that a handler catches, or 0.
pub fn read_caught(pool: &CheckedPool, cur: &mut Cursor) -> Result<u16, ItemFault>
    ensures { ReadsPart (caught_at pool.now) cur.old cur.new result }
{
    let at = cur.at();
    let index = u2(cur)?;
    if !is_caught(pool, index) {
        return Err(ItemFault::Bad(ClassFault::BadIndex { at }));
    }
    Ok(index)
}

/// The index of a field's descriptor.
pub fn read_type(pool: &CheckedPool, cur: &mut Cursor) -> Result<u16, ItemFault>
    ensures { ReadsPart (type_at pool.now) cur.old cur.new result }
{
    let at = cur.at();
    let index = u2(cur)?;
    described(pool, at, index)?;
    Ok(index)
}

/// `V`
const VOID: [u16; 1] = [86];

/// The index of a result's descriptor.
pub fn read_result(pool: &CheckedPool, cur: &mut Cursor) -> Result<u16, ItemFault>
    ensures { ReadsPart (result_at pool.now) cur.old cur.new result }
{
    let at = cur.at();
    let index = u2(cur)?;
    if names_text(pool, index, &VOID) {
        return Ok(index);
    }
    described(pool, at, index)?;
    Ok(index)
}
