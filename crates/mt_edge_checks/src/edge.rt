//! Any tree and keeper, the tree, the sink and the keeper in memory, and the meter of steps.

ghost use Rattle.std.specs.Prelude.{◌≡◌, ◌↔◌, ◌<◌, ◌≤◌, ◌+◌, ◌^◌, OnOk, OnErr, IsErrOf, IsTrue};
ghost use Rattle.mt_edge.specs.Answered.{ListsBelow, ReadsAt, IsReplaced, OldOrReplaced};
ghost use Rattle.mt_edge.specs.Causes.{HasCause};
ghost use Rattle.mt_edge.specs.Held.{fails, after_call};
ghost use Rattle.mt_edge.specs.Keeping.{IsAllDurable};
ghost use Rattle.mt_edge.specs.Pieces.{Grows, GrowsBy};
ghost use Rattle.mt_edge.specs.Shown.{tree_holds, tree_script, tree_reading, tree_writing, sink_written, sink_script, sink_faults, keeper_kept, keeper_durable, keeper_script, keeper_reading, keeper_writing};
ghost use Rattle.mt_edge.specs.declared.outside.EdgeFault.TheVariants.{Failed};

use class_model::Bytes;
use mt_edge::{EdgeFault, Keeper, MemKeeper, MemSink, MemTree, MeterPart, Sink, Tree};

/// `Tree::list`, of any tree.
pub fn list<T: Tree>(tree: &mut T, folder: &str) -> Result<Vec<String>, EdgeFault>
    ensures names { ListsBelow folder.now (T.holds tree.old) result }
    ensures same { T.holds tree.new ≡ T.holds tree.old }
    ensures cause { HasCause (T.reading tree.old) (T.reading tree.new) result }
    ensures other { T.writing tree.new ≡ T.writing tree.old }
{
    tree.list(folder)
}

/// `MemTree::read`.
pub fn read(tree: &mut MemTree, path: &str) -> Result<Option<Bytes>, EdgeFault>
    ensures bytes { ReadsAt path.now (tree_holds tree.old) result }
    ensures same { tree_holds tree.new ≡ tree_holds tree.old }
    ensures cause { HasCause (tree_reading tree.old) (tree_reading tree.new) result }
    ensures other { tree_writing tree.new ≡ tree_writing tree.old }
    ensures told { IsErrOf result Failed ↔ IsTrue (fails (tree_script tree.old)) }
    ensures counted { tree_script tree.new ≡ after_call (tree_script tree.old) }
{
    tree.read(path)
}

/// `MemTree::replace`.
pub fn replace(tree: &mut MemTree, path: &str, bytes: &[u8]) -> Result<(), EdgeFault>
    ensures ok { OnOk result
        (IsReplaced path.now bytes.now (tree_holds tree.old) (tree_holds tree.new)) }
    ensures err { OnErr result
        (OldOrReplaced path.now bytes.now (tree_holds tree.old) (tree_holds tree.new)) }
    ensures cause { HasCause (tree_writing tree.old) (tree_writing tree.new) result }
    ensures other { tree_reading tree.new ≡ tree_reading tree.old }
    ensures told { IsErrOf result Failed ↔ IsTrue (fails (tree_script tree.old)) }
    ensures counted { tree_script tree.new ≡ after_call (tree_script tree.old) }
{
    tree.replace(path, bytes)
}

/// `MemSink::put`.
pub fn put(sink: &mut MemSink, bytes: &[u8]) -> Result<(), EdgeFault>
    ensures ok { OnOk result (Grows (sink_written sink.old) (sink_written sink.new) bytes.now) }
    ensures err { OnErr result (GrowsBy (sink_written sink.old) (sink_written sink.new) bytes.now) }
    ensures cause { HasCause (sink_faults sink.old) (sink_faults sink.new) result }
    ensures told { IsErrOf result Failed ↔ IsTrue (fails (sink_script sink.old)) }
    ensures counted { sink_script sink.new ≡ after_call (sink_script sink.old) }
{
    sink.put(bytes)
}

/// `MemKeeper::append`.
pub fn append(keeper: &mut MemKeeper, piece: &[u8]) -> Result<(), EdgeFault>
    ensures ok { OnOk result (Grows (keeper_kept keeper.old) (keeper_kept keeper.new) piece.now) }
    ensures err { OnErr result
        (GrowsBy (keeper_kept keeper.old) (keeper_kept keeper.new) piece.now) }
    ensures durable { keeper_durable keeper.old ≤ keeper_durable keeper.new }
    ensures cause { HasCause (keeper_writing keeper.old) (keeper_writing keeper.new) result }
    ensures other { keeper_reading keeper.new ≡ keeper_reading keeper.old }
    ensures told { IsErrOf result Failed ↔ IsTrue (fails (keeper_script keeper.old)) }
    ensures counted { keeper_script keeper.new ≡ after_call (keeper_script keeper.old) }
{
    keeper.append(piece)
}

/// `Keeper::sync`, of any keeper.
pub fn sync<K: Keeper>(keeper: &mut K) -> Result<(), EdgeFault>
    ensures ok { OnOk result (IsAllDurable (K.kept keeper.new) (K.durable keeper.new)) }
    ensures same { K.kept keeper.new ≡ K.kept keeper.old }
    ensures durable { K.durable keeper.old ≤ K.durable keeper.new }
    ensures cause { HasCause (K.writing keeper.old) (K.writing keeper.new) result }
    ensures other { K.reading keeper.new ≡ K.reading keeper.old }
{
    keeper.sync()
}

/// `MeterPart::tick`.
pub fn tick(part: &mut MeterPart)
    requires { part.old + 1 < 2 ^ 64 }
    ensures { part.new ≡ part.old + 1 }
{
    part.tick();
}
