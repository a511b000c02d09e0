//! What is appended to a journal, made durable.

ghost use Rattle.std.specs.Prelude.{◌≡◌, ◌≤◌, OnOk, OnErr};
ghost use Rattle.mt_edge.specs.Causes.{HasCause};
ghost use Rattle.mt_edge.specs.Keeping.{IsAllDurable};
ghost use Rattle.mt_edge.specs.Pieces.{Grows, GrowsBy};

use mt_edge::{EdgeFault, Keeper};

/// Appends a piece and makes it durable, by one call each.
pub fn put_piece<K: Keeper>(keeper: &mut K, piece: &[u8]) -> Result<(), EdgeFault>
    ensures ok { OnOk result (Grows (K.kept keeper.old) (K.kept keeper.new) piece.now) }
    ensures synced { OnOk result (IsAllDurable (K.kept keeper.new) (K.durable keeper.new)) }
    ensures err { OnErr result (GrowsBy (K.kept keeper.old) (K.kept keeper.new) piece.now) }
    ensures durable { K.durable keeper.old ≤ K.durable keeper.new }
    ensures cause { HasCause (K.writing keeper.old) (K.writing keeper.new) result }
    ensures other { K.reading keeper.new ≡ K.reading keeper.old }
{
    keeper.append(piece)?;
    keeper.sync()?;
    Ok(())
}

/// The same of a text that may be empty, which isn't appended then.
pub fn complete<K: Keeper>(keeper: &mut K, closing: &[u8]) -> Result<(), EdgeFault>
    ensures ok { OnOk result (Grows (K.kept keeper.old) (K.kept keeper.new) closing.now) }
    ensures synced { OnOk result (IsAllDurable (K.kept keeper.new) (K.durable keeper.new)) }
    ensures err { OnErr result (GrowsBy (K.kept keeper.old) (K.kept keeper.new) closing.now) }
    ensures cause { HasCause (K.writing keeper.old) (K.writing keeper.new) result }
    ensures other { K.reading keeper.new ≡ K.reading keeper.old }
{
    if closing.is_empty() {
        return keeper.sync();
    }
    put_piece(keeper, closing)
}
