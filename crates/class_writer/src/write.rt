//! The items of a class file, one after the other.

ghost use Rattle.std.specs.Prelude.{◌≡◌, ◌++◌, length, All, OnOk};
ghost use Rattle.std.specs.Int.{w16, to_be_bytes};
ghost use Rattle.std.specs.List.{flat_map};
ghost use Rattle.class_model.specs.declared.fault.LayoutFault.TheVariants as layout_fault;
ghost use Rattle.codec_rules.specs.Meets.{Gives};
ghost use Rattle.mt_pool.specs.Spelling.{pool_bytes};
ghost use Rattle.mt_attrs.specs.Attributes.{attrs_bytes};
ghost use Rattle.mt_attrs.specs.Layout.{count_bound, first_of, attrs_bound, Writes, HasAttrForm};
ghost use Rattle.class_reader.specs.Spells.{member_bytes, counted_bytes, class_bytes};
ghost use Rattle.class_writer.specs.Writing.{pool_bound, member_bound, members_bound, class_bound, layout, HasMemberForm, HasClassForm};

use class_model::{Attr, Bound, Bytes, Class, Const, LayoutFault, Member, Memory, Seq};
use mt_attrs::write_attrs;
use mt_bytes::{put_u2, put_u4};
use mt_pool::write_pool;
use std::alloc::Global;

const MAGIC: u32 = 0xCAFE_BABE;

// A count of two bytes.
fn put_count(out: &mut Bytes, count: usize) -> Result<(), LayoutFault>
    ensures { Writes (count_bound count) (to_be_bytes w16 count) out.old out.new result }
{
    let Ok(count) = u16::try_from(count) else {
        return Err(LayoutFault::TooLarge { what: Bound::List });
    };
    put_u2(out, count)?;
    Ok(())
}

fn put_interfaces(out: &mut Bytes, interfaces: &[u16]) -> Result<(), LayoutFault>
    ensures { Writes (count_bound (length interfaces.now))
        (counted_bytes (to_be_bytes w16) interfaces.now) out.old out.new result }
{
    put_count(out, interfaces.len())?;
    put_indices(out, interfaces)?;
    Ok(())
}

/// The indices, in two bytes each.
pub fn put_indices(out: &mut Bytes, indices: &[u16]) -> Result<(), Memory>
    ensures { OnOk result (out.new ≡ out.old ++ flat_map (to_be_bytes w16) indices.now) }
{
    for index in indices {
        put_u2(out, *index)?;
    }
    Ok(())
}

#[tactic(auto, using(crate::proofs::Bounds::attrs_written))]
fn put_attrs(out: &mut Bytes, attrs: &Seq<Attr>) -> Result<(), LayoutFault>
    requires { All HasAttrForm attrs.now }
    ensures { Writes (attrs_bound attrs.now) (attrs_bytes attrs.now) out.old out.new result }
{
    write_attrs(attrs, out)
}

fn put_member(out: &mut Bytes, member: &Member) -> Result<(), LayoutFault>
    requires { HasMemberForm member.now }
    ensures { Writes (member_bound member.now) (member_bytes member.now) out.old out.new result }
{
    put_u2(out, member.flags)?;
    put_u2(out, member.name)?;
    put_u2(out, member.desc)?;
    put_attrs(out, &member.attrs)?;
    Ok(())
}

fn put_each(out: &mut Bytes, members: &[Member]) -> Result<(), LayoutFault>
    requires { All HasMemberForm members.now }
    ensures { Writes (first_of member_bound members.now) (flat_map member_bytes members.now)
        out.old out.new result }
{
    for member in members {
        put_member(out, member)?;
    }
    Ok(())
}

fn put_members(out: &mut Bytes, members: &[Member]) -> Result<(), LayoutFault>
    requires { All HasMemberForm members.now }
    ensures { Writes (members_bound members.now) (counted_bytes member_bytes members.now)
        out.old out.new result }
{
    put_count(out, members.len())?;
    put_each(out, members)?;
    Ok(())
}

#[tactic(auto, using(crate::proofs::Bounds::pool_written))]
fn put_pool(out: &mut Bytes, pool: &Seq<Const>) -> Result<(), LayoutFault>
    ensures { Writes (pool_bound pool.now) (pool_bytes pool.now) out.old out.new result }
{
    write_pool(pool, out)
}

fn put_class(out: &mut Bytes, class: &Class) -> Result<(), LayoutFault>
    requires { HasClassForm class.now }
    ensures { Writes (class_bound class.now) (class_bytes class.now) out.old out.new result }
{
    put_u4(out, MAGIC)?;
    put_u2(out, class.minor)?;
    put_u2(out, class.major)?;
    put_pool(out, &class.pool)?;
    put_u2(out, class.flags)?;
    put_u2(out, class.this)?;
    put_u2(out, class.parent)?;
    put_interfaces(out, class.interfaces.as_slice())?;
    put_members(out, class.fields.as_slice())?;
    put_members(out, class.methods.as_slice())?;
    put_attrs(out, &class.attrs)?;
    Ok(())
}

/// The class file of a class. `TooLarge` comes exactly where a part of it is too large, and names
/// the bound that the first such part passes in the order of the file.
pub fn write_class(alloc: Global, class: &Class) -> Result<Bytes, LayoutFault>
    requires { HasClassForm class.now }
    ensures { Gives layout_fault.Memory (λ bytes. bytes) (layout class.now) result }
{
    let mut out = Bytes::new(alloc);
    put_class(&mut out, class)?;
    Ok(out)
}
