//! Attributes: a call of `mt_attrs`.

ghost use Rattle.std.specs.Prelude.{◌≡◌, ℕ, ◌+◌, List, ◌++◌, length, IfOk, Ok};
ghost use Rattle.class_model.specs.declared.attribute.Attr.{Attr};
ghost use Rattle.class_model.specs.declared.fault.ClassFault.TheVariants as fault;
ghost use Rattle.codec_rules.specs.Meets.{Reads};
ghost use Rattle.codec_rules.specs.Spelling.{input_at};
ghost use Rattle.mt_bytes.specs.Items.{ReadsItem};
ghost use Rattle.mt_attrs.specs.Attributes.{attrs_at, attrs_bytes, AreAttrs};

use class_model::{Attr, CheckedPool, ClassFault, Seq};
use mt_attrs::Owner;
use mt_bytes::Cursor;
use std::alloc::Global;

/// `read_attrs`.
pub fn read_attrs(
    alloc: Global,
    cur: &mut Cursor,
    owner: Owner,
    pool: &CheckedPool,
) -> Result<Seq<Attr>, ClassFault>
    ensures found { IfOk result (λ attrs.
        AreAttrs pool.now owner attrs × (cur.old.bytes ≡ attrs_bytes attrs ++ cur.new.bytes)
        × (cur.new.at ≡ cur.old.at + length (attrs_bytes attrs))) }
    ensures only { (attrs : List Attr) (behind : List ℕ) → AreAttrs pool.now owner attrs →
        cur.old.bytes ≡ attrs_bytes attrs ++ behind →
        Reads fault.Memory
        (λ i. Ok (attrs, input_at (cur.old.at + length (attrs_bytes attrs)) behind))
        cur.old cur.new result }
    ensures exact { ReadsItem (attrs_at owner pool.now) cur.old cur.new result }
{
    mt_attrs::read_attrs(alloc, cur, owner, pool)
}
