//! The content of an attribute, whose length is stated (JVMS 4.7).

ghost use Rattle.std.specs.Prelude.{◌≡◌, ◌+◌, ◌<◌, ◌^◌, length, nat_le, nat_lt, ◌&&◌, true};
ghost use Rattle.codec_rules.specs.Input.{behind};
ghost use Rattle.mt_attrs.specs.Item.{front, closing};

use crate::fault::ItemFault;
use class_model::ClassFault;
use mt_bytes::Cursor;

/// The bytes that a stated length gives to the content, as far as they are there.
#[derive(Clone, Copy)]
pub struct Content<'a> {
    pub bytes: &'a [u8],
    /// The place of the first byte.
    pub at: u64,
    /// The stated length.
    pub len: u32,
    /// Whether all of them are there.
    pub whole: bool,
}

/// Moves behind the content.
pub fn opened<'a>(cur: &mut Cursor<'a>, len: u32) -> Content<'a>
    ensures bytes { record { at = result.at; bytes = result.bytes.now } ≡ front len cur.old }
    ensures len { result.len ≡ len }
    ensures fits { result.at + length result.bytes.now < 2 ^ 64 }
    ensures whole { result.whole ≡ nat_le len (length cur.old.bytes) }
    ensures moved { result.whole ≡ true → cur.new ≡ behind len cur.old }
{
    let at = cur.at();
    let left = cur.left();
    let whole = u64::from(len) <= left;
    let count = if whole { len } else { left as u32 };
    let Ok(bytes) = cur.take(count) else {
        unreachable!()
    };
    Content {
        bytes,
        at,
        len,
        whole,
    }
}

/// Whether an item crosses the end of content that begins at `start`, and stands whole in the file.
fn crosses(at: u64, need: u64, start: u64, len: u32, file_end: u64) -> bool
    ensures { result ≡ nat_lt (start + len) (at + need) && nat_le (at + need) file_end }
{
    let Some(stop) = at.checked_add(need) else {
        return false;
    };
    match start.checked_add(u64::from(len)) {
        Some(end) => end < stop && stop <= file_end,
        None => false,
    }
}

/// What was read of the content, of which `left` bytes are left, and which has to end where its
/// length says. An item that crosses that end and stands whole in the file is told at the first
/// byte of the attribute.
pub fn closed<T: Drop>(
    read: Result<T, ItemFault>,
    left: u64,
    part: Content,
    file_end: u64,
    first: u64,
) -> Result<T, ItemFault>
    ensures { result ≡ closing file_end first (part.entry.at + part.entry.len) part.entry.whole left
        read }
{
    match read {
        Ok(value) => {
            if part.whole && left == 0 {
                Ok(value)
            } else {
                Err(ItemFault::Bad(ClassFault::BadLength { at: first }))
            }
        }
        Err(ItemFault::Short { at, need }) => {
            if crosses(at, need, part.at, part.len, file_end) {
                Err(ItemFault::Bad(ClassFault::BadLength { at: first }))
            } else {
                Err(ItemFault::Short { at, need })
            }
        }
        Err(ItemFault::Bad(fault)) => Err(ItemFault::Bad(fault)),
    }
}
