//! Indices of the constant pool, each of which has to name what stands in its place.

ghost use Rattle.std.specs.Prelude.{◌≡◌, is_some};
ghost use Rattle.class_model.specs.DeclaredName.{is_field_name as is_named_as_field, is_method_name as is_named_as_method};
ghost use Rattle.class_model.specs.DescriptorReading.{field_kind, method_kinds};
ghost use Rattle.class_model.specs.declared.fault.ClassFault.TheVariants as fault;
ghost use Rattle.codec_rules.specs.Meets.{Gives};
ghost use Rattle.mt_bytes.specs.Items.{ReadsItem};
ghost use Rattle.class_reader.specs.Indices.{index_or_fault, index_at, names_class as is_class, no_class, names_this as is_this, no_this, names_parent as is_parent, names_name, no_name, names_desc, no_desc};

use class_model::{CheckedPool, ClassFault, Const, DescFault, is_class_name};
use mt_bytes::Cursor;
use mt_pool::{class_name_of, names_class, text_of};

/// `java/lang/Object`
const OBJECT: [u16; 16] = [
    106, 97, 118, 97, 47, 108, 97, 110, 103, 47, 79, 98, 106, 101, 99, 116,
];

/// The index of a class.
pub fn class_index(pool: &[Const], cur: &mut Cursor) -> Result<u16, ClassFault>
    ensures { ReadsItem (index_at (is_class pool.now) no_class) cur.old cur.new result }
{
    let at = cur.at();
    let index = cur.u2()?;
    if names_class(pool, index) {
        Ok(index)
    } else {
        Err(ClassFault::BadIndex { at })
    }
}

fn names_this(pool: &[Const], index: u16) -> bool
    ensures { result ≡ is_this pool.now index }
{
    match class_name_of(pool, index) {
        Some(name) => is_class_name(name.as_slice()),
        None => false,
    }
}

fn no_this(pool: &[Const], index: u16, at: u64) -> ClassFault
    ensures { result ≡ no_this pool.now index at }
{
    match class_name_of(pool, index) {
        Some(_) => ClassFault::BadText { at },
        None => ClassFault::BadIndex { at },
    }
}

/// The index of the class that the file declares.
pub fn this_index(pool: &[Const], cur: &mut Cursor) -> Result<u16, ClassFault>
    ensures { ReadsItem (index_at (is_this pool.now) (no_this pool.now)) cur.old cur.new result }
{
    let at = cur.at();
    let index = cur.u2()?;
    if names_this(pool, index) {
        Ok(index)
    } else {
        Err(no_this(pool, index, at))
    }
}

fn names_parent(pool: &[Const], this: u16, index: u16) -> bool
    ensures { result ≡ is_parent pool.now this index }
{
    if index != 0 {
        return names_class(pool, index);
    }
    match class_name_of(pool, this) {
        Some(name) => name.as_slice() == OBJECT.as_slice(),
        None => false,
    }
}

/// The index of the superclass, or 0, which only `java/lang/Object` has.
pub fn parent_index(pool: &[Const], this: u16, cur: &mut Cursor) -> Result<u16, ClassFault>
    ensures { ReadsItem (index_at (is_parent pool.now this) no_class) cur.old cur.new result }
{
    let at = cur.at();
    let index = cur.u2()?;
    if names_parent(pool, this, index) {
        Ok(index)
    } else {
        Err(ClassFault::BadIndex { at })
    }
}

fn no_name(pool: &[Const], index: u16, at: u64) -> ClassFault
    ensures { result ≡ no_name pool.now index at }
{
    match text_of(pool, index) {
        Some(_) => ClassFault::BadText { at },
        None => ClassFault::BadIndex { at },
    }
}

fn names_field_name(pool: &CheckedPool, index: u16) -> bool
    ensures { result ≡ names_name is_named_as_field pool.now index }
{
    match pool.text(index) {
        Some((_, verdict)) => verdict.names_field,
        None => false,
    }
}

fn names_method_name(pool: &CheckedPool, index: u16) -> bool
    ensures { result ≡ names_name is_named_as_method pool.now index }
{
    match pool.text(index) {
        Some((_, verdict)) => verdict.names_method,
        None => false,
    }
}

/// The index of the name that a field has.
pub fn field_name(pool: &CheckedPool, cur: &mut Cursor) -> Result<u16, ClassFault>
    ensures { ReadsItem (index_at (names_name is_named_as_field pool.now) (no_name pool.now))
        cur.old cur.new result }
{
    let at = cur.at();
    let index = cur.u2()?;
    if names_field_name(pool, index) {
        Ok(index)
    } else {
        Err(no_name(pool.entries(), index, at))
    }
}

/// The index of the name that a method has.
pub fn method_name(pool: &CheckedPool, cur: &mut Cursor) -> Result<u16, ClassFault>
    ensures { ReadsItem (index_at (names_name is_named_as_method pool.now) (no_name pool.now))
        cur.old cur.new result }
{
    let at = cur.at();
    let index = cur.u2()?;
    if names_method_name(pool, index) {
        Ok(index)
    } else {
        Err(no_name(pool.entries(), index, at))
    }
}

#[tactic(auto, using(crate::proofs::VerdictLaws::no_field_memory))]
fn field_desc_index(pool: &CheckedPool, index: u16, at: u64) -> Result<u16, ClassFault>
    ensures { Gives fault.Memory (λ index. index)
        (index_or_fault (names_desc field_kind pool.now) (no_desc field_kind pool.now) at index)
        result }
{
    let Some((_, verdict)) = pool.text(index) else {
        return Err(ClassFault::BadIndex { at });
    };
    match verdict.field {
        Ok(()) => Ok(index),
        Err(DescFault::Bad) => Err(ClassFault::BadText { at }),
        Err(DescFault::Float) => Err(ClassFault::FloatUsed { at }),
        Err(DescFault::Memory) => unreachable!(),
    }
}

#[tactic(auto, using(crate::proofs::VerdictLaws::no_method_memory))]
fn method_desc_index(pool: &CheckedPool, index: u16, at: u64) -> Result<u16, ClassFault>
    ensures { Gives fault.Memory (λ index. index)
        (index_or_fault (names_desc method_kinds pool.now) (no_desc method_kinds pool.now) at index)
        result }
{
    let Some((_, verdict)) = pool.text(index) else {
        return Err(ClassFault::BadIndex { at });
    };
    match verdict.method {
        Ok(_) => Ok(index),
        Err(DescFault::Bad) => Err(ClassFault::BadText { at }),
        Err(DescFault::Float) => Err(ClassFault::FloatUsed { at }),
        Err(DescFault::Memory) => unreachable!(),
    }
}

/// The index of the descriptor that a field has.
pub fn field_desc(pool: &CheckedPool, cur: &mut Cursor) -> Result<u16, ClassFault>
    ensures { ReadsItem (index_at (names_desc field_kind pool.now) (no_desc field_kind pool.now))
        cur.old cur.new result }
{
    let at = cur.at();
    let index = cur.u2()?;
    let found = field_desc_index(pool, index, at)?;
    Ok(found)
}

/// The index of the descriptor that a method has.
pub fn method_desc(pool: &CheckedPool, cur: &mut Cursor) -> Result<u16, ClassFault>
    ensures { ReadsItem
        (index_at (names_desc method_kinds pool.now) (no_desc method_kinds pool.now))
        cur.old cur.new result }
{
    let at = cur.at();
    let index = cur.u2()?;
    let found = method_desc_index(pool, index, at)?;
    Ok(found)
}
