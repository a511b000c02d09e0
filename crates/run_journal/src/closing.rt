//! What a text lacks to be a whole journal.

ghost use Rattle.std.specs.Prelude.{◌≡◌, ◌∷◌, ◌++◌, [], replicate, IfOk};
ghost use Rattle.run_journal.specs.Reading.{Open, closing_of, void_end};

use class_model::{Bytes, Memory};
use std::alloc::Global;

/// That of an entry in a chunk that lacks so many bytes: zeros, and the end of a void entry.
pub fn chunk_closing(alloc: Global, lacking: usize) -> Result<Bytes, Memory>
    ensures { IfOk result (λ closing. closing ≡ replicate lacking 0 ++ void_end) }
{
    let mut closing = Bytes::from_vec(vec![in alloc; 0; lacking]?);
    closing.push(0)?;
    closing.push(2)?;
    Ok(closing)
}

/// That of an entry behind a chunk, with this content; none where there is no entry.
pub fn open_closing(alloc: Global, content: &[u8]) -> Result<Bytes, Memory>
    ensures { IfOk result (λ closing. closing ≡ closing_of (Open content.now)) }
{
    match content {
        [] => Ok(Bytes::new(alloc)),
        [_, ..] => chunk_closing(alloc, 0),
    }
}

/// That of an entry that lacks its mark alone.
pub fn mark_closing(alloc: Global) -> Result<Bytes, Memory>
    ensures { IfOk result (λ closing. closing ≡ 2 ∷ []) }
{
    let mut closing = Bytes::new(alloc);
    closing.push(2)?;
    Ok(closing)
}
