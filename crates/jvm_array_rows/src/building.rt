//! Arrays of arrays in a heap that has room for them, each made with what it holds.

ghost use Rattle.std.specs.Prelude.{◌≡◌, ◌+◌, ◌-◌, ◌*◌, ◌<◌, ◌≤◌, ◌^◌, ◌∷◌, ◌++◌, [], drop, length, IfOk, OnOk, IfSome, IfNone};
ghost use Rattle.jvm_values.specs.Contents.{next_number};
ghost use Rattle.jvm_world.specs.View.{AreShort};
ghost use Rattle.jvm_array_rows.specs.Built.{words_for, component_of, with_array};
ghost use Rattle.jvm_array_rows.specs.Grown.{total, IsTotal, AreSizes, references, with_whole, begun, grown, finished, inner_left, IsNext, IsBuilt};

use crate::dimensions::{behind, component_of};
use class_model::{Kind, Memory, Seq};
use jvm_values::{Heap, HeapFault, ObjKind, Object};
use program_rules::Value;
use std::alloc::Global;

// How many arrays an outer array and its components are; where they don't fit a word, any number.
fn total_with(count: u32, each: u32) -> u32
    ensures { 1 + count * each < 2 ^ 32 → result ≡ 1 + count * each }
{
    let total = count as u64 * each as u64;
    if total < u32::MAX as u64 {
        total as u32 + 1
    } else {
        0
    }
}

// For each count how many arrays each component is.
fn sizes_of(alloc: Global, counts: &[u32]) -> Result<Vec<u32>, Memory>
    ensures len { IfOk result (λ sizes. length sizes.items ≡ length counts.now) }
    ensures sizes { IfOk result (λ sizes. AreSizes 0 sizes.items counts.now) }
{
    let mut sizes = vec![in alloc; 0; counts.len()]?;
    let mut total = 0;
    let mut left = counts.len();
    while left > 0 {
        left -= 1;
        sizes[left] = total;
        total = total_with(counts[left], total);
    }
    Ok(sizes)
}

// The counts from a level on.
fn counts_from(counts: &[u32], level: usize) -> &[u32]
    requires { level ≤ length counts.now }
    ensures { result.now ≡ drop level counts.now }
{
    &counts[level..]
}

// How many arrays each component of a level is.
fn size_at(sizes: &[u32], counts: &[u32], level: usize) -> u32
    requires level { level < length counts.now }
    requires all { length sizes.now ≡ length counts.now }
    requires sizes { AreSizes 0 sizes.now counts.now }
    ensures { IsTotal result (drop (level + 1) counts.now) }
{
    let _ = counts.len();
    sizes[level]
}

// References to so many objects from a number on, each so many behind the one before.
fn references(alloc: Global, first: u32, each: u32, count: u32) -> Result<Seq<Value>, Memory>
    requires { first + count * each < 2 ^ 32 }
    ensures { IfOk result (λ values. values ≡ references first each count) }
{
    let mut values = Vec::with_capacity(alloc, count as usize)?;
    let mut at = first;
    for _made in 0..count {
        values.push(Value::Ref(at))?;
        at += each;
    }
    Ok(Seq::from_vec(values))
}

// An array of these values is made, for which there is room.
fn add_array(heap: &mut Heap, alloc: Global, kind: Kind, values: Seq<Value>) -> Result<(), Memory>
    requires { heap.old.used + (2 + length values) ≤ heap.old.limit }
    ensures { OnOk result (heap.new ≡ with_whole kind values heap.old) }
{
    let more = values.len() as u64 + 1;
    let array = Object {
        kind: ObjKind::Array(kind),
        values,
        text: Seq::new(alloc),
        items: Seq::new(alloc),
    };
    match heap.add(array, more) {
        Ok(_) => Ok(()),
        Err(HeapFault::Full) => unreachable!(),
        Err(HeapFault::Memory) => Err(Memory),
    }
}

// An array whose elements have their first values is made, for which there is room.
fn add_plain(heap: &mut Heap, kind: Kind, count: u32) -> Result<(), Memory>
    requires { heap.old.used + (2 + count) ≤ heap.old.limit }
    ensures { OnOk result (heap.new ≡ with_array kind count heap.old) }
{
    match heap.array(kind, count) {
        Ok(_) => Ok(()),
        Err(HeapFault::Full) => unreachable!(),
        Err(HeapFault::Memory) => Err(Memory),
    }
}

// The outer array is made, by how many arrays each component is to be.
fn begin(
    heap: &mut Heap,
    alloc: Global,
    name: &[u16],
    counts: &[u32],
    each: u32,
) -> Result<(), Memory>
    requires there { 1 ≤ length counts.now }
    requires each { IsTotal each (drop 1 counts.now) }
    requires room { heap.old.used + words_for counts.now ≤ heap.old.limit }
    requires small { heap.old.limit < 2 ^ 31 }
    ensures { OnOk result (heap.new ≡ begun name.now counts.now heap.old) }
{
    let [count, inner @ ..] = counts else {
        return Ok(());
    };
    let kind = component_of(alloc, name)?;
    if inner.is_empty() {
        return add_plain(heap, kind, *count);
    }
    if *count == 0 {
        return add_array(heap, alloc, kind, Seq::new(alloc));
    }
    let first = heap.count() + 2;
    let values = references(alloc, first, each, *count)?;
    add_array(heap, alloc, kind, values)?;
    Ok(())
}

// Takes the number of arrays that are left of the innermost level.
fn innermost(lefts: &mut Vec<u32>) -> Option<u32>
    ensures some { IfSome result (λ left. lefts.old.items ≡ lefts.new.items ++ left ∷ []) }
    ensures none { IfNone result (lefts.old.items ≡ []) }
    ensures end { IfNone result (lefts.new.items ≡ []) }
{
    lefts.pop()
}

// One array less is left of a level, and so many of the next one as it has components.
fn push_lefts(lefts: &mut Vec<u32>, counts: &[u32], left: u32) -> Result<(), Memory>
    requires there { 1 ≤ length counts.now }
    requires left { 0 < left }
    ensures { OnOk result (lefts.new.items
        ≡ lefts.old.items ++ (left - 1) ∷ inner_left counts.now) }
{
    lefts.push(left - 1)?;
    match counts {
        [count, _, ..] => {
            lefts.push(*count)?;
            Ok(())
        }
        _ => Ok(()),
    }
}

// One array of the innermost level is made, of which so many are left, if any is.
fn make_next(
    heap: &mut Heap,
    alloc: Global,
    name: &[u16],
    counts: &[u32],
    sizes: &[u32],
    lefts: &mut Vec<u32>,
    left: u32,
) -> Result<(), Memory>
    requires level { length lefts.old.items < length counts.now }
    requires sizes { AreSizes 0 sizes.now counts.now }
    requires all { length sizes.now ≡ length counts.now }
    requires room { (finished name.now counts.now (lefts.old.items ++ left ∷ []) heap.old).used
        ≤ heap.old.limit }
    requires small { heap.old.limit < 2 ^ 31 }
    requires short { AreShort heap.old.objects }
    ensures { OnOk result (IsNext name.now counts.now left
        lefts.old.items heap.old lefts.new.items heap.new) }
{
    if left == 0 {
        return Ok(());
    }
    let level = lefts.len();
    let here = counts_from(counts, level);
    let text = behind(name, level);
    let each = size_at(sizes, counts, level);
    begin(heap, alloc, text, here, each)?;
    push_lefts(lefts, here, left)?;
    Ok(())
}

// All is made that is left.
fn finish(
    heap: &mut Heap,
    alloc: Global,
    name: &[u16],
    counts: &[u32],
    sizes: &[u32],
    lefts: &mut Vec<u32>,
) -> Result<(), Memory>
    requires levels { length lefts.old.items ≤ length counts.now }
    requires sizes { AreSizes 0 sizes.now counts.now }
    requires all { length sizes.now ≡ length counts.now }
    requires room { (finished name.now counts.now lefts.old.items heap.old).used ≤ heap.old.limit }
    requires small { heap.old.limit < 2 ^ 31 }
    requires short { AreShort heap.old.objects }
    ensures { OnOk result (
        IsBuilt (finished name.now counts.now lefts.old.items heap.old) heap.old heap.new) }
{
    while let Some(left) = innermost(lefts) {
        make_next(heap, alloc, name, counts, sizes, lefts, left)?;
    }
    Ok(())
}

/// Makes arrays of arrays of this name in a heap that has room for them: the outer one first, then
/// each component whole.
pub fn build(heap: &mut Heap, alloc: Global, name: &[u16], counts: &[u32]) -> Result<(), Memory>
    requires there { 1 ≤ length counts.now }
    requires room { heap.old.used + words_for counts.now ≤ heap.old.limit }
    requires small { heap.old.limit < 2 ^ 31 }
    requires short { AreShort heap.old.objects }
    ensures { OnOk result (
        IsBuilt (grown name.now counts.now heap.old) heap.old heap.new) }
{
    let sizes = sizes_of(alloc, counts)?;
    let mut lefts = Vec::with_capacity(alloc, counts.len())?;
    lefts.push(1)?;
    finish(heap, alloc, name, counts, &sizes, &mut lefts)?;
    Ok(())
}
