//! A class file: the head, the pool, the members, the attributes, and the end.

ghost use Rattle.std.specs.Prelude.{◌≡◌, ◌<◌, ◌^◌, length, IfOk, MatchResult};
ghost use Rattle.codec_rules.specs.Meets.{Gives};
ghost use Rattle.class_model.specs.declared.fault.ClassFault.TheVariants as fault;
ghost use Rattle.mt_bytes.specs.Items.{ReadsItem};
ghost use Rattle.class_reader.specs.Reading.{magic_at, major_at, class_at, class_of_file};
ghost use Rattle.class_reader.specs.Spells.{Spells};

use crate::indices::{parent_index, this_index};
use crate::members::{read_fields, read_interfaces, read_methods};
use class_model::{CheckedPool, Class, ClassFault};
use mt_attrs::{Owner, read_attrs};
use mt_bytes::Cursor;
use mt_pool::read_pool;
use std::alloc::Global;

const MAGIC: u32 = 0xCAFE_BABE;

#[tactic(auto, unfolding(crate::specs::Reading::magic_at))]
fn read_magic(cur: &mut Cursor) -> Result<u32, ClassFault>
    ensures { ReadsItem magic_at cur.old cur.new result }
{
    let first = cur.u4()?;
    if first == MAGIC {
        Ok(first)
    } else {
        Err(ClassFault::BadMagic)
    }
}

#[tactic(auto, unfolding(crate::specs::Reading::major_at))]
fn read_major(cur: &mut Cursor) -> Result<u16, ClassFault>
    ensures { ReadsItem major_at cur.old cur.new result }
{
    let major = cur.u2()?;
    if major == 51 || major == 52 {
        Ok(major)
    } else {
        Err(ClassFault::BadVersion { major })
    }
}

#[tactic(auto, unfolding(crate::specs::Reading::class_at))]
fn read_items(alloc: Global, cur: &mut Cursor) -> Result<Class, ClassFault>
    ensures { ReadsItem class_at cur.old cur.new result }
{
    read_magic(cur)?;
    let minor = cur.u2()?;
    let major = read_major(cur)?;
    let pool = read_pool(alloc, cur)?;
    let flags = cur.u2()?;
    let this = this_index(pool.as_slice(), cur)?;
    let parent = parent_index(pool.as_slice(), this, cur)?;
    let interfaces = read_interfaces(alloc, pool.as_slice(), cur)?;
    let checked = CheckedPool::new(alloc, pool.as_slice())?;
    let fields = read_fields(alloc, &checked, cur)?;
    let methods = read_methods(alloc, &checked, cur)?;
    let attrs = read_attrs(alloc, cur, Owner::OfClass, &checked)?;
    drop(checked);
    Ok(Class {
        minor,
        major,
        pool,
        flags,
        this,
        parent,
        interfaces,
        fields,
        methods,
        attrs,
    })
}

/// The class that the bytes of a file are (JVMS 4), or the first fault in the order of the file. A
/// place in a fault is a byte offset from the front of the file.
#[tactic(auto, unfolding(crate::specs::Reading::class_of_file))]
pub fn read_class(alloc: Global, bytes: &[u8]) -> Result<Class, ClassFault>
    // The bytes are the class file of what is answered.
    ensures found { IfOk result (λ class. Spells bytes.now class) }

    // The class of which the bytes are the file is answered, unless memory runs out.
    ensures only { (class : Class) → Spells bytes.now class →
        MatchResult result (λ c. c ≡ class) (λ e. e ≡ fault.Memory) }

    // Which fault it is.
    ensures exact { Gives fault.Memory (λ class. class) (class_of_file bytes.now) result }
{
    let mut cur = Cursor::new(bytes, 0);
    let class = read_items(alloc, &mut cur)?;
    if cur.left() == 0 {
        Ok(class)
    } else {
        Err(ClassFault::TrailingBytes { at: cur.at() })
    }
}
