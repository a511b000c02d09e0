//! Writing the entries.

ghost use Rattle.std.specs.Prelude.{◌≡◌, ◌++◌, ◌<◌, ◌^◌, length, OnOk, true, All};
ghost use Rattle.std.specs.List.{flat_map};
ghost use Rattle.class_model.specs.Text.{text};
ghost use Rattle.mt_pool.specs.Spelling.{u1, u2, u8, two_indices, content, entry_bytes, tag_of};
ghost use Rattle.mt_pool.specs.Whole.{has_text_size};

use class_model::{Bytes, Const, Memory, Name, write_text};
use mt_bytes::{put_u1, put_u2, put_u4};

/// A number of eight bytes, as two of four.
fn put_halves(out: &mut Bytes, n: u64) -> Result<(), Memory>
    ensures { OnOk result (out.new ≡ out.old ++ u8 n) }
{
    put_u4(out, (n / 0x1_0000_0000) as u32)?;
    put_u4(out, (n % 0x1_0000_0000) as u32)
}

fn put_two(out: &mut Bytes, first: u16, second: u16) -> Result<(), Memory>
    ensures { OnOk result (out.new ≡ out.old ++ two_indices first second) }
{
    put_u2(out, first)?;
    put_u2(out, second)
}

fn put_handle(out: &mut Bytes, kind: u8, member: u16) -> Result<(), Memory>
    ensures { OnOk result (out.new ≡ out.old ++ (u1 kind ++ u2 member)) }
{
    put_u1(out, kind)?;
    put_u2(out, member)
}

fn put_text(out: &mut Bytes, units: &Name) -> Result<(), Memory>
    requires { length (text units.now) < 2 ^ 16 }
    ensures { OnOk result (out.new ≡ out.old ++ (u2 (length (text units.now)) ++ text units.now)) }
{
    let bytes = write_text(out.allocator(), units)?;
    put_u2(out, bytes.len() as u16)?;
    out.extend_from_slice(bytes.as_slice())
}

/// The tag of an entry, 0 for `Second`, which has none.
fn tag_of(entry: &Const) -> u8
    ensures { result ≡ tag_of entry.now }
{
    match entry {
        Const::Utf8(_) => 1,
        Const::Integer(_) => 3,
        Const::Float(_) => 4,
        Const::Long(_) => 5,
        Const::Double(_) => 6,
        Const::Class(_) => 7,
        Const::Text(_) => 8,
        Const::Field(_, _) => 9,
        Const::Method(_, _) => 10,
        Const::IMethod(_, _) => 11,
        Const::Pair(_, _) => 12,
        Const::Handle(_, _) => 15,
        Const::MethodKind(_) => 16,
        Const::Dynamic(_, _) => 18,
        Const::Second => 0,
    }
}

/// What stands behind the tag.
fn put_content(out: &mut Bytes, entry: &Const) -> Result<(), Memory>
    requires { has_text_size entry.now ≡ true }
    ensures { OnOk result (out.new ≡ out.old ++ content entry.now) }
{
    match entry {
        Const::Utf8(units) => put_text(out, units),
        Const::Integer(value) => put_u4(out, value.cast_unsigned()),
        Const::Float(bits) => put_u4(out, *bits),
        Const::Long(value) => put_halves(out, value.cast_unsigned()),
        Const::Double(bits) => put_halves(out, *bits),
        Const::Class(index) | Const::Text(index) | Const::MethodKind(index) => put_u2(out, *index),
        Const::Field(first, second)
        | Const::Method(first, second)
        | Const::IMethod(first, second)
        | Const::Pair(first, second)
        | Const::Dynamic(first, second) => put_two(out, *first, *second),
        Const::Handle(kind, member) => put_handle(out, *kind, *member),
        Const::Second => Ok(()),
    }
}

/// An entry. `Second` has no bytes.
fn put_entry(out: &mut Bytes, entry: &Const) -> Result<(), Memory>
    requires { has_text_size entry.now ≡ true }
    ensures { OnOk result (out.new ≡ out.old ++ entry_bytes entry.now) }
{
    if matches!(entry, Const::Second) {
        return Ok(());
    }
    put_u1(out, tag_of(entry))?;
    put_content(out, entry)
}

/// The entries, one after the other.
pub fn put_entries(pool: &[Const], out: &mut Bytes) -> Result<(), Memory>
    requires { All (λ entry. has_text_size entry ≡ true) pool.now }
    ensures { OnOk result (out.new ≡ out.old ++ flat_map entry_bytes pool.now) }
{
    for entry in pool {
        put_entry(out, entry)?;
    }
    Ok(())
}
