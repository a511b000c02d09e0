//! An entry of a journal, written.

ghost use Rattle.std.specs.Prelude.{◌≡◌, ◌<◌, ◌++◌, length, take, drop, OnOk};
ghost use Rattle.run_journal.specs.Entries.{entry_bytes, good_entry};

use class_model::{Bytes, Memory};

// The first 255 bytes, and those behind them.
fn cut(content: &[u8]) -> (&[u8], &[u8])
    ensures front { result.0.now ≡ take 255 content.now }
    ensures behind { result.1.now ≡ drop 255 content.now }
    ensures short { length result.0.now < 256 }
{
    if content.len() < 255 {
        content.split_at(content.len())
    } else {
        content.split_at(255)
    }
}

/// A good entry of this content, behind what is there.
pub fn put_entry(content: &[u8], out: &mut Bytes) -> Result<(), Memory>
    ensures { OnOk result (out.new ≡ out.old ++ entry_bytes (good_entry content.now)) }
{
    let mut rest = content;
    'chunks: while rest.len() > 0 {
        let (chunk, behind) = cut(rest);
        out.push(chunk.len() as u8)?;
        out.extend_from_slice(chunk)?;
        rest = behind;
    }
    out.push(0)?;
    out.push(1)?;
    Ok(())
}
