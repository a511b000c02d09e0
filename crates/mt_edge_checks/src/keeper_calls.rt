//! Calls of keepers, as rows of tables, and what a keeper answers.

use class_model::Bytes;
use mt_edge::{EdgeFault, Keeper};
use std::test::Fail;

/// What is asked of a keeper.
#[derive(Clone, Copy)]
pub enum KeeperCall {
    Load,
    Append,
    Sync,
}

/// A call, the piece that is appended, and what the call answers: the bytes that are loaded, or what
/// became of it.
pub type KeeperRow = (KeeperCall, &'static str, &'static str);

fn loads(loaded: Result<Bytes, EdgeFault>, wanted: &str) -> bool {
    match loaded {
        Ok(bytes) => bytes.as_slice() == wanted.as_bytes(),
        Err(_) => wanted == "failed",
    }
}

fn is_done(outcome: Result<(), EdgeFault>, wanted: &str) -> bool {
    match outcome {
        Ok(()) => wanted == "done",
        Err(_) => wanted == "failed",
    }
}

/// Whether a keeper answers a call so.
pub fn keeps<K: Keeper>(keeper: &mut K, call: KeeperCall, piece: &str, wanted: &str) -> bool {
    match call {
        KeeperCall::Load => loads(keeper.load(), wanted),
        KeeperCall::Append => is_done(keeper.append(piece.as_bytes()), wanted),
        KeeperCall::Sync => is_done(keeper.sync(), wanted),
    }
}

/// The number of the first call that a keeper answers otherwise; how many there are, where it
/// answers none so.
pub fn first_other_call<K: Keeper>(keeper: &mut K, rows: &[KeeperRow]) -> Result<usize, Fail> {
    for i in 0..rows.len() {
        let (call, piece, wanted) = rows[i];
        if !keeps(keeper, call, piece, wanted) {
            return Ok(i);
        }
    }
    Ok(rows.len())
}
