//! The constant pool of a class file (JVMS 4.4): one spelling, both ways.
//!
//! A new kind of entry is one more variant of `Const` and a case in:
//! - `specs/Spelling.antt`: its tag, and what stands behind it (`tag_of`, `content`);
//! - `specs/Reading.antt`: what is read behind the tag (`tagged_at`);
//! - `specs/Indices.antt`: what is told of its indices, if it has any (`entry_fault`);
//!
//! and an arm in `src/entry.rt`, `src/index.rt`, `src/size.rt` and `src/put.rt`, with a case in
//! `Fits` and a line in `tagged_codec` of `proofs/EntryLaws.antt`, and one in `entry_good` and
//! `entry_again` of `proofs/IndexLaws.antt` and `proofs/IndexAgain.antt`. Which entries are right
//! is `IsEntry` of `class_model`.
#![tactic(auto)]

ghost use Rattle.std.specs.Prelude.{◌≡◌, ◌++◌, ◌+◌, List, ℕ, length, IfOk, OnOk, Ok};
ghost use Rattle.class_model.specs.Pool.{IsPool};
ghost use Rattle.class_model.specs.declared.constant.Const.{Const};
ghost use Rattle.class_model.specs.declared.fault.LayoutFault.TheVariants as layout_fault;
ghost use Rattle.codec_rules.specs.Meets.{Gives};
ghost use Rattle.codec_rules.specs.Spelling.{input_at};
ghost use Rattle.mt_bytes.specs.Items.{ReadsItem};
ghost use Rattle.mt_pool.specs.Spelling.{pool_bytes};
ghost use Rattle.mt_pool.specs.Whole.{pool_at, IsPoolRead, layout, ReadIsWritten, WrittenIsRead};

use class_model::{Bytes, ClassFault, Const, LayoutFault, Seq};
use mt_bytes::Cursor;
use std::alloc::Global;

mod entry;
mod index;
mod named;
mod put;
mod size;
mod whole;

pub use named::{class_name_of, entry_of, names_class, pair_of, text_of};
use whole::{read_whole, write_whole};

/// The pool at the cursor: its count, its entries and then the indices inside them, in the order of
/// the entries. The first fault is answered. A count of 0 is read as that of an empty pool.
///
/// `Truncated`: too few bytes remain for the item that begins there. `BadTag`: a tag or the kind of
/// a handle isn't one of the standard's. `BadText`: a text isn't modified UTF-8 in its shortest
/// form, told at its entry; or a text that an index uses as a descriptor is outside the grammar, or
/// is one of the other kind of member, told at the index. `FloatUsed`: a descriptor has a float or
/// a double, told at the index. `BadIndex`: an index is 0, past the pool, or on an entry of the
/// wrong kind; or no place is left for the second half of a long or a double, told at its entry.
pub fn read_pool(alloc: Global, cur: &mut Cursor) -> Result<Seq<Const>, ClassFault>
    // The bytes spell what is answered, but that an empty pool may have the count 0.
    ensures found { IfOk result (λ pool. IsPoolRead cur.old pool cur.new) }

    // What the bytes spell is answered, unless memory runs out.
    ensures only { (pool : List Const) (rest : List ℕ) → IsPool pool →
        cur.old.bytes ≡ pool_bytes pool ++ rest →
        ReadsItem (λ input. Ok (pool, input_at (input.at + length (pool_bytes pool)) rest))
        cur.old cur.new result }

    // Which fault it is.
    ensures exact { ReadsItem pool_at cur.old cur.new result }
{
    read_whole(alloc, cur)
}

/// Adds the bytes of the pool at the end. `Pool` is too large exactly where it has more than 65,534
/// places, and else `Text` exactly where one of its texts has more than 65,535 bytes; then the list
/// is unchanged.
pub fn write_pool(pool: &Seq<Const>, out: &mut Bytes) -> Result<(), LayoutFault>
    ensures ok { OnOk result (out.new ≡ out.old ++ pool_bytes pool.now) }

    // Whether there is room, or what is too large.
    ensures exact { Gives layout_fault.Memory (λ _. pool_bytes pool.now) (layout pool.now) result }
    ensures unchanged { (what : _) → result ≡ Err (layout_fault.TooLarge what) → out.new ≡ out.old }
{
    write_whole(pool.as_slice(), out)
}

/// What was read is written as it was: `write_pool` takes each pool that has a spelling, and gives
/// that spelling.
pub fn what_is_read_is_written()
    ensures { ReadIsWritten }
{}

/// What was written is read again: the bytes that `write_pool` gives for a pool of the form are its
/// spelling.
pub fn what_is_written_is_read()
    ensures { WrittenIsRead }
{}
