//! Interfaces, fields and methods: a count, and so many of them.

ghost use Rattle.std.specs.Prelude.{◌≡◌};
ghost use Rattle.codec_rules.specs.Reading.{many_at};
ghost use Rattle.mt_bytes.specs.Items.{ReadsItem};
ghost use Rattle.class_reader.specs.Indices.{index_at, names_class, no_class};
ghost use Rattle.class_reader.specs.Reading.{field_at, method_at, counted_at};

use crate::indices::{class_index, field_desc, field_name, method_desc, method_name};
use class_model::{CheckedPool, ClassFault, Const, Member, Seq};
use mt_attrs::{Owner, read_attrs};
use mt_bytes::Cursor;
use std::alloc::Global;

#[tactic(auto, unfolding(crate::specs::Reading::member_at))]
fn read_field(alloc: Global, pool: &CheckedPool, cur: &mut Cursor) -> Result<Member, ClassFault>
    ensures { ReadsItem (field_at pool.now) cur.old cur.new result }
{
    let flags = cur.u2()?;
    let name = field_name(pool, cur)?;
    let desc = field_desc(pool, cur)?;
    let attrs = read_attrs(alloc, cur, Owner::OfField, pool)?;
    Ok(Member {
        flags,
        name,
        desc,
        attrs,
    })
}

#[tactic(auto, unfolding(crate::specs::Reading::member_at))]
fn read_method(alloc: Global, pool: &CheckedPool, cur: &mut Cursor) -> Result<Member, ClassFault>
    ensures { ReadsItem (method_at pool.now) cur.old cur.new result }
{
    let flags = cur.u2()?;
    let name = method_name(pool, cur)?;
    let desc = method_desc(pool, cur)?;
    let attrs = read_attrs(alloc, cur, Owner::OfMethod, pool)?;
    Ok(Member {
        flags,
        name,
        desc,
        attrs,
    })
}

fn read_so_many_interfaces(
    alloc: Global,
    pool: &[Const],
    count: u16,
    cur: &mut Cursor,
) -> Result<Seq<u16>, ClassFault>
    ensures { ReadsItem (many_at (index_at (names_class pool.now) no_class) count)
        cur.old cur.new result }
{
    let mut interfaces = Seq::new(alloc);
    for _ in 0..count {
        let interface = class_index(pool, cur)?;
        interfaces.push(interface)?;
    }
    Ok(interfaces)
}

fn read_so_many_fields(
    alloc: Global,
    pool: &CheckedPool,
    count: u16,
    cur: &mut Cursor,
) -> Result<Seq<Member>, ClassFault>
    ensures { ReadsItem (many_at (field_at pool.now) count) cur.old cur.new result }
{
    let mut fields = Seq::new(alloc);
    for _ in 0..count {
        let field = read_field(alloc, pool, cur)?;
        fields.push(field)?;
    }
    Ok(fields)
}

fn read_so_many_methods(
    alloc: Global,
    pool: &CheckedPool,
    count: u16,
    cur: &mut Cursor,
) -> Result<Seq<Member>, ClassFault>
    ensures { ReadsItem (many_at (method_at pool.now) count) cur.old cur.new result }
{
    let mut methods = Seq::new(alloc);
    for _ in 0..count {
        let method = read_method(alloc, pool, cur)?;
        methods.push(method)?;
    }
    Ok(methods)
}

/// The direct superinterfaces, by the indices of their classes.
#[tactic(auto, unfolding(crate::specs::Reading::counted_at))]
pub fn read_interfaces(
    alloc: Global,
    pool: &[Const],
    cur: &mut Cursor,
) -> Result<Seq<u16>, ClassFault>
    ensures { ReadsItem (counted_at (index_at (names_class pool.now) no_class))
        cur.old cur.new result }
{
    let count = cur.u2()?;
    let interfaces = read_so_many_interfaces(alloc, pool, count, cur)?;
    Ok(interfaces)
}

#[tactic(auto, unfolding(crate::specs::Reading::counted_at))]
pub fn read_fields(
    alloc: Global,
    pool: &CheckedPool,
    cur: &mut Cursor,
) -> Result<Seq<Member>, ClassFault>
    ensures { ReadsItem (counted_at (field_at pool.now)) cur.old cur.new result }
{
    let count = cur.u2()?;
    let fields = read_so_many_fields(alloc, pool, count, cur)?;
    Ok(fields)
}

#[tactic(auto, unfolding(crate::specs::Reading::counted_at))]
pub fn read_methods(
    alloc: Global,
    pool: &CheckedPool,
    cur: &mut Cursor,
) -> Result<Seq<Member>, ClassFault>
    ensures { ReadsItem (counted_at (method_at pool.now)) cur.old cur.new result }
{
    let count = cur.u2()?;
    let methods = read_so_many_methods(alloc, pool, count, cur)?;
    Ok(methods)
}
