//! An object is changed.

ghost use Rattle.std.specs.Prelude.{◌≡◌, ◌++◌, ◌≤◌, ◌<◌, slice_set, IfOk};
ghost use Rattle.program_rules.specs.Deeds.{insert_item, remove_item, remove_entry};
ghost use Rattle.lib_core.specs.Performed.{IsAltered};

use crate::deed::Change;
use class_model::{Memory, Seq};
use jvm_values::Object;
use program_rules::Value;

// A place past the end changes nothing.
fn insert_item(items: Seq<Value>, at: u32, v: Value) -> Result<Seq<Value>, Memory>
    ensures { IfOk result (λ vs. vs ≡ insert_item at v items) }
{
    let mut items = items.into_vec();
    if at as usize <= items.len() {
        items.insert(at as usize, v)?;
    }
    Ok(Seq::from_vec(items))
}

fn set_item(items: Seq<Value>, at: u64, v: Value) -> Seq<Value>
    ensures { result ≡ slice_set items at v }
{
    let mut items = items.into_vec();
    if (at as usize) < items.len() {
        items[at as usize] = v;
    }
    Seq::from_vec(items)
}

fn remove_item(items: Seq<Value>, at: u32) -> Seq<Value>
    ensures { result ≡ remove_item at items }
{
    let mut items = items.into_vec();
    if (at as usize) < items.len() {
        items.remove(at as usize);
    }
    Seq::from_vec(items)
}

fn remove_entry(items: Seq<Value>, at: u64) -> Seq<Value>
    ensures { result ≡ remove_entry at items }
{
    let mut items = items.into_vec();
    let at = at as usize;
    if items.len() >= 3 && at <= items.len() - 3 {
        items.remove(at);
        items.remove(at);
        items.remove(at);
    }
    Seq::from_vec(items)
}

fn add_items(items: Seq<Value>, more: Seq<Value>) -> Result<Seq<Value>, Memory>
    ensures { IfOk result (λ vs. vs ≡ items ++ more) }
{
    let mut items = items;
    items.extend_from_slice(more.as_slice())?;
    Ok(items)
}

/// The object once it is changed.
pub fn change_object(object: Object, change: Change) -> Result<Object, Memory>
    ensures { IfOk result (λ o. IsAltered change object o) }
{
    let mut object = object;
    match change {
        Change::SetText(units) => object.text = units,
        Change::AddText(units) => object.text.extend_from_slice(units.as_slice())?,
        Change::SetItems(values) => object.items = values,
        Change::SetValues(values) => object.values = values,
        Change::AddItems(more) => object.items = add_items(object.items, more)?,
        Change::InsertItem(at, v) => object.items = insert_item(object.items, at, v)?,
        Change::SetItem(at, v) => object.items = set_item(object.items, at, v),
        Change::CutItem(at) => object.items = remove_item(object.items, at),
        Change::CutEntry(at) => object.items = remove_entry(object.items, at),
    }
    Ok(object)
}
