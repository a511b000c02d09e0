//! The text of a shard file.

ghost use Rattle.std.specs.Prelude.{◌≡◌, ◌++◌, IfOk, OnOk};
ghost use Rattle.shard_rules.specs.Heads.{head_bytes};

use class_model::{Bytes, Memory, Seq};
use mt_bytes::{put_u2, put_u4};
use shard_rules::Head;
use std::alloc::Global;

fn put_head(head: Head, out: &mut Bytes) -> Result<(), Memory>
    ensures { OnOk result (out.new ≡ out.old ++ head_bytes head) }
{
    put_u4(out, 0x4d54_5348)?;
    put_u2(out, 1)?;
    put_u2(out, head.index)?;
    put_u2(out, head.of)?;
    Ok(())
}

/// The text of a shard whose history has this text.
pub fn shard_text(alloc: Global, head: Head, history: &[u8]) -> Result<Bytes, Memory>
    ensures { IfOk result (λ text. text ≡ head_bytes head ++ history.now) }
{
    let mut text = Seq::with_capacity(alloc, history.len().saturating_add(10))?;
    put_head(head, &mut text)?;
    text.extend_from_slice(history)?;
    Ok(text)
}
