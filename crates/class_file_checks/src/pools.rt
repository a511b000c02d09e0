//! The constant pool: calls of `mt_pool`.

ghost use Rattle.std.specs.Prelude.{◌≡◌, ◌++◌, ◌+◌, List, ℕ, length, IfOk, OnOk, Ok};
ghost use Rattle.class_model.specs.Pool.{IsPool};
ghost use Rattle.class_model.specs.declared.constant.Const.{Const};
ghost use Rattle.class_model.specs.declared.fault.LayoutFault.TheVariants as layout_fault;
ghost use Rattle.codec_rules.specs.Meets.{Gives};
ghost use Rattle.codec_rules.specs.Spelling.{input_at};
ghost use Rattle.mt_bytes.specs.Items.{ReadsItem};
ghost use Rattle.mt_pool.specs.Spelling.{pool_bytes};
ghost use Rattle.mt_pool.specs.Whole.{pool_at, IsPoolRead, layout};

use class_model::{Bytes, ClassFault, Const, LayoutFault, Seq};
use mt_bytes::Cursor;
use std::alloc::Global;

/// `read_pool`.
pub fn read_pool(alloc: Global, cur: &mut Cursor) -> Result<Seq<Const>, ClassFault>
    ensures found { IfOk result (λ pool. IsPoolRead cur.old pool cur.new) }
    ensures only { (pool : List Const) (rest : List ℕ) → IsPool pool →
        cur.old.bytes ≡ pool_bytes pool ++ rest →
        ReadsItem (λ input. Ok (pool, input_at (input.at + length (pool_bytes pool)) rest))
        cur.old cur.new result }
    ensures exact { ReadsItem pool_at cur.old cur.new result }
{
    mt_pool::read_pool(alloc, cur)
}

/// `write_pool`.
pub fn write_pool(pool: &Seq<Const>, out: &mut Bytes) -> Result<(), LayoutFault>
    ensures ok { OnOk result (out.new ≡ out.old ++ pool_bytes pool.now) }
    ensures exact { Gives layout_fault.Memory (λ _. pool_bytes pool.now) (layout pool.now) result }
    ensures unchanged { (what : _) → result ≡ Err (layout_fault.TooLarge what) → out.new ≡ out.old }
{
    mt_pool::write_pool(pool, out)
}
