//! Numbers and bytes at a place in a file: calls of `mt_bytes`.

ghost use Rattle.std.specs.Prelude.{◌≡◌, ◌++◌, OnOk, OnErr};
ghost use Rattle.std.specs.Int.{w16, to_be_bytes};
ghost use Rattle.codec_rules.specs.Reading.{bytes_at};
ghost use Rattle.mt_bytes.specs.Moves.{MovesBy};

use class_model::{Bytes, Memory};
use mt_bytes::{Cursor, Truncated};

/// `Cursor::take`.
pub fn take<'a>(cursor: &mut Cursor<'a>, n: u32) -> Result<&'a [u8], Truncated>
    ensures { MovesBy (λ slice. slice.now) (bytes_at n) cursor.old cursor.new result }
{
    cursor.take(n)
}

/// `put_u2`.
pub fn put_u2(out: &mut Bytes, v: u16) -> Result<(), Memory>
    ensures ok { OnOk result (out.new ≡ out.old ++ to_be_bytes w16 v) }
    ensures err { OnErr result (out.new ≡ out.old) }
{
    mt_bytes::put_u2(out, v)
}
