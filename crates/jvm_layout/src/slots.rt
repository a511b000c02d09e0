//! The slot of a field in the objects of a class: fields of superclasses stand before those of a
//! class, and those before them in the class (this project's own).

ghost use Rattle.std.specs.Prelude.{◌≡◌, nat_eq, ◌<◌, ◌≤◌, ◌+◌, ◌^◌, length, IfSome, IfNone};
ghost use Rattle.program_rules.specs.Layout.{values_of};
ghost use Rattle.program_rules.specs.Outlines.{outline_of, fields_in};
ghost use Rattle.program_rules.specs.Resolution.{superclasses_behind, slot_of};
ghost use Rattle.class_table.specs.Table.{look, name_at};
ghost use Rattle.class_family.specs.Families.{node_of, rising_at};
ghost use Rattle.jvm_layout.specs.Layouts.{own_at, own_before, rising_from};

use crate::fields::count_own;
use class_family::superclass;
use class_model::ClassId;
use class_model::flags::is_interface;
use class_table::Program;

// How many fields of its own a class's instances have.
#[tactic(auto, unfolding(class_link::specs::View::linked_of))]
fn count_declared(p: &Program, class: ClassId) -> usize
    requires { class.0 < length p.now }
    ensures { result ≡ length (own_at (outline_of (look p.now (name_at p.now class.0)))) }
{
    let _len = p.len();
    let linked = p.info(class).linked();
    let all_static = is_interface(linked.flags);
    count_own(linked.fields.as_slice(), all_static)
}

// The same of those before a place.
#[tactic(auto, unfolding(class_link::specs::View::linked_of), using(crate::proofs::SlotCounts::before_within, crate::proofs::SlotCounts::before_count))]
fn count_before(p: &Program, class: ClassId, place: usize) -> usize
    requires class { class.0 < length p.now }
    requires place { place < length (fields_in (outline_of (look p.now (name_at p.now class.0)))) }
    ensures { result
        ≡ length (own_before place (outline_of (look p.now (name_at p.now class.0)))) }
{
    let _len = p.len();
    let linked = p.info(class).linked();
    let all_static = is_interface(linked.flags);
    let fields = linked.fields.as_slice();
    count_own(&fields[..place], all_static)
}

fn is_same(a: ClassId, b: ClassId) -> bool
    ensures { result ≡ nat_eq a.0 b.0 }
{
    a.0 == b.0
}

// The superclass of a class that the walk upwards from another one comes to, if it has one; none,
// too, where the walk doesn't come to it.
#[tactic(auto, using(crate::proofs::SlotCounts::behind_found, crate::proofs::SlotCounts::behind_passed, crate::proofs::SlotCounts::behind_nowhere))]
fn behind(p: &Program, root: ClassId, class: ClassId) -> Option<ClassId>
    requires root { root.0 < length p.now }
    requires class { class.0 < length p.now }
    ensures within { IfSome result (λ a. a.0 < length p.now) }
    ensures behind { superclasses_behind (name_at p.now class.0) (rising_at p.now root.0)
        ≡ rising_from p.now result }
{
    let _len = p.len();
    let mut next = Some(root);
    while let Some(here) = next {
        let over = superclass(p, here);
        if is_same(here, class) {
            return over;
        }
        next = over;
    }
    None
}

// A sum, where it is below 2^64.
fn add(count: usize, more: usize) -> Option<usize>
    ensures some { IfSome result (λ sum. sum ≡ count + more) }
    ensures none { IfNone result (2 ^ 64 ≤ count + more) }
{
    count.checked_add(more)
}

// So many fields, and those of a class and all above it.
#[tactic(auto, using(crate::proofs::SlotCounts::count_done, crate::proofs::SlotCounts::count_full))]
fn count_up(p: &Program, from: Option<ClassId>, own: usize) -> Option<usize>
    requires { IfSome from (λ a. a.0 < length p.now) }
    ensures some { IfSome result (λ n. n ≡ own + length (values_of (rising_from p.now from))) }
    ensures none { IfNone result (2 ^ 64 ≤ own + length (values_of (rising_from p.now from))) }
{
    let _len = p.len();
    let mut count = own;
    let mut next = from;
    while let Some(here) = next {
        let over = superclass(p, here);
        let more = count_declared(p, here);
        let Some(sum) = add(count, more) else {
            return None;
        };
        count = sum;
        next = over;
    }
    Some(count)
}

// A number of 32 bits, where it is one.
fn narrow(count: usize) -> Option<u32>
    ensures some { IfSome result (λ n. n ≡ count) }
    ensures none { IfNone result (2 ^ 32 ≤ count) }
{
    if count > u32::MAX as usize {
        return None;
    }
    Some(count as u32)
}

/// The slot of the field of a class at a place, in an object of a class from which the walk upwards
/// comes to it; none where it takes more than 32 bits.
#[tactic(auto, using(crate::proofs::SlotCounts::slot_some, crate::proofs::SlotCounts::slot_none, crate::proofs::SlotCounts::slot_over))]
pub fn slot_of(p: &Program, root: ClassId, class: ClassId, place: usize) -> Option<u32>
    requires root { root.0 < length p.now }
    requires class { class.0 < length p.now }
    requires place { place < length (fields_in (outline_of (look p.now (name_at p.now class.0)))) }
    ensures some { IfSome result (λ slot. slot ≡ slot_of (rising_at p.now root.0)
        (node_of (look p.now) (name_at p.now class.0)) place) }
    ensures none { IfNone result (2 ^ 32 ≤ slot_of (rising_at p.now root.0)
        (node_of (look p.now) (name_at p.now class.0)) place) }
{
    let own = count_before(p, class, place);
    let over = behind(p, root, class);
    match count_up(p, over, own) {
        Some(count) => narrow(count),
        None => None,
    }
}
