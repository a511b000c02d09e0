//! The place map of an edit, and what names places in instructions and in the exception table.

ghost use Rattle.std.specs.Prelude.{◌≡◌, ◌<◌, ◌^◌, ◌++◌, map, false, All, IfOk, OnOk};
ghost use Rattle.mutant_apply.specs.Moved.{moved_place, moved_arg, moved_insn, moved_row};
ghost use Rattle.mutant_apply.specs.Room.{IsNear, LeadsNear, IsNearRow};
ghost use Rattle.class_model.specs.declared.instruction.Arg.TheVariants as arg;

use class_model::{Arg, Insn, Memory, Row, Seq};

/// A place up to `at` stays; a later one moves by `more`.
#[derive(Clone, Copy)]
pub struct PlaceMap {
    pub at: u32,
    pub more: u32,
    ghost near: { more < 2 ^ 17 },
}

impl PlaceMap {
    pub fn moved(self, place: u32) -> u32
        requires { IsNear place }
        ensures { result ≡ moved_place self.at self.more place }
    {
        if place <= self.at {
            place
        } else {
            place + self.more
        }
    }
}

fn moved_targets(by: PlaceMap, targets: &Seq<u32>) -> Result<Seq<u32>, Memory>
    requires { All IsNear targets.now }
    ensures { IfOk result (λ moved. moved ≡ map (moved_place by.at by.more) targets.now) }
{
    let mut moved = targets.empty();
    for target in targets.as_slice() {
        moved.push(by.moved(*target))?;
    }
    Ok(moved)
}

fn moved_pairs(by: PlaceMap, pairs: &Seq<(i32, u32)>) -> Result<Seq<(i32, u32)>, Memory>
    requires { All (λ pair. IsNear pair.1) pairs.now }
    ensures { IfOk result (λ moved.
        moved ≡ map (λ pair. (pair.0, moved_place by.at by.more pair.1)) pairs.now) }
{
    let mut moved = pairs.empty();
    for (key, target) in pairs.as_slice() {
        moved.push((*key, by.moved(*target)))?;
    }
    Ok(moved)
}

fn moved_lookup(by: PlaceMap, default: u32, keys: &Seq<(i32, u32)>) -> Result<Arg, Memory>
    requires default { IsNear default }
    requires keys { All (λ key. IsNear key.1) keys.now }
    ensures { IfOk result (λ m.
        m ≡ moved_arg (moved_place by.at by.more) (arg.Lookup default keys.now)) }
{
    let moved = moved_pairs(by, keys)?;
    Arg::lookup(by.moved(default), moved)
}

fn moved_arg(by: PlaceMap, arg: &Arg) -> Result<Arg, Memory>
    requires { LeadsNear (record { op = 0; wide = false; arg = arg.now }) }
    ensures { IfOk result (λ moved. moved ≡ moved_arg (moved_place by.at by.more) arg.now) }
{
    match arg {
        Arg::To(target) => Ok(Arg::To(by.moved(*target))),
        Arg::Table(default, table) => {
            let (low, targets) = table.get();
            let moved = moved_targets(by, targets)?;
            Arg::table(by.moved(*default), *low, moved)
        }
        Arg::Lookup(default, keys) => moved_lookup(by, *default, keys.get()),
        other => other.copy(),
    }
}

/// An instruction with its targets moved.
pub fn moved_insn(by: PlaceMap, insn: &Insn) -> Result<Insn, Memory>
    requires { LeadsNear insn.now }
    ensures { IfOk result (λ moved. moved ≡ moved_insn (moved_place by.at by.more) insn.now) }
{
    Ok(Insn {
        op: insn.op,
        wide: insn.wide,
        arg: moved_arg(by, &insn.arg)?,
    })
}

/// Adds instructions with their targets moved at the end.
pub fn push_moved(edited: &mut Seq<Insn>, by: PlaceMap, insns: &[Insn]) -> Result<(), Memory>
    requires { All LeadsNear insns.now }
    ensures { OnOk result (
        edited.new ≡ edited.old ++ map (moved_insn (moved_place by.at by.more)) insns.now) }
{
    for insn in insns {
        edited.push(moved_insn(by, insn)?)?;
    }
    Ok(())
}

/// A row of the exception table, moved.
pub fn moved_row(by: PlaceMap, row: Row) -> Row
    requires { IsNearRow row }
    ensures { result ≡ moved_row (moved_place by.at by.more) row }
{
    Row {
        start: by.moved(row.start),
        end: by.moved(row.end),
        handler: by.moved(row.handler),
        catch: row.catch,
    }
}

/// The rows of an exception table, moved.
pub fn moved_rows(by: PlaceMap, rows: &Seq<Row>) -> Result<Seq<Row>, Memory>
    requires { All IsNearRow rows.now }
    ensures { IfOk result (λ moved. moved ≡ map (moved_row (moved_place by.at by.more)) rows.now) }
{
    let mut moved = rows.empty();
    for row in rows.as_slice() {
        moved.push(moved_row(by, *row))?;
    }
    Ok(moved)
}
