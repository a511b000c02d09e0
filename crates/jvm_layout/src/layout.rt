//! The layout of a class's instances.

ghost use Rattle.std.specs.Prelude.{◌≡◌, ◌++◌, ◌+◌, ◌<◌, ◌≤◌, [], None, length, reverse, IfOk, OnOk, IfSome};
ghost use Rattle.program_rules.specs.Layout.{own_words};
ghost use Rattle.program_rules.specs.Outlines.{is_abstract_class, outline_of};
ghost use Rattle.class_table.specs.Table.{look, name_at};
ghost use Rattle.class_family.specs.Families.{node_of};
ghost use Rattle.jvm_layout.specs.Layouts.{own_at, Climbs, IsLayoutOf};

use crate::fields::push_defaults;
use crate::native::native_words;
use class_family::superclass;
use class_model::flags::{is_abstract, is_interface};
use class_model::{ClassId, Memory, Seq};
use class_table::Program;
use program_rules::Value;
use std::alloc::Global;

/// What `new` makes of a class: whether it makes none, what an instance holds at first, those of
/// the highest class first, and the words that it takes beside one.
#[derive(Drop)]
pub struct Layout {
    pub is_abstract: bool,
    pub values: Seq<Value>,
    pub more: u64,
}

// The words that each object of a class takes beside its fields for the class itself.
#[tactic(auto, unfolding(class_link::specs::View::linked_of))]
fn own_words(p: &Program, class: ClassId) -> u32
    requires { class.0 < length p.now }
    ensures { result ≡ own_words (node_of (look p.now) (name_at p.now class.0)) }
{
    let _len = p.len();
    let info = p.info(class);
    if info.linked().library {
        native_words(info.name().as_slice())
    } else {
        0
    }
}

// Adds what a class declares for its instances, the last field first.
#[tactic(auto, unfolding(class_link::specs::View::linked_of))]
fn push_own(p: &Program, class: ClassId, values: &mut Vec<Value>) -> Result<(), Memory>
    requires { class.0 < length p.now }
    ensures { OnOk result (values.new.items ≡ values.old.items ++ reverse
        (own_at (outline_of (look p.now (name_at p.now class.0))))) }
{
    let _len = p.len();
    let linked = p.info(class).linked();
    let all_static = is_interface(linked.flags);
    push_defaults(linked.fields.as_slice(), all_static, values)?;
    Ok(())
}

// Whether `new` makes no object of a class.
#[tactic(auto, unfolding(class_link::specs::View::linked_of))]
fn is_abstract_class(p: &Program, class: ClassId) -> bool
    requires { class.0 < length p.now }
    ensures { result ≡ is_abstract_class (outline_of (look p.now (name_at p.now class.0))) }
{
    let _len = p.len();
    let flags = p.info(class).linked().flags;
    is_abstract(flags) || is_interface(flags)
}

// Adds what a class and all above it declare, this one's last field first; the words beside the
// fields.
fn climb(p: &Program, class: ClassId, values: &mut Vec<Value>) -> Result<u64, Memory>
    requires class { class.0 < length p.now }
    requires empty { values.old.items ≡ [] }
    ensures { IfOk result (λ extra. Climbs p.now class.0 None values.new.items extra) }
{
    let _len = p.len();
    let mut extra = 0;
    let mut next = Some(class);
    while let Some(here) = next {
        push_own(p, here, values)?;
        let words = own_words(p, here);
        let Some(sum) = add(extra, words) else {
            return Err(Memory);
        };
        extra = sum;
        next = superclass(p, here);
    }
    Ok(extra)
}

fn add(extra: u64, words: u32) -> Option<u64>
    ensures { IfSome result (λ sum. sum ≡ extra + words) }
{
    extra.checked_add(words as u64)
}

fn total(extra: u64, count: u64) -> Option<u64>
    ensures { IfSome result (λ sum. sum ≡ extra + count) }
{
    extra.checked_add(count)
}

/// The layout of a class's instances.
pub fn layout_of(alloc: Global, p: &Program, class: ClassId) -> Result<Layout, Memory>
    requires { class.0 < length p.now }
    ensures layout { IfOk result (λ l. IsLayoutOf p.now class.0 l) }
    ensures slots { IfOk result (λ l. length l.values ≤ 1 + l.more) }
{
    let mut values = Vec::new(alloc);
    let extra = climb(p, class, &mut values)?;
    values.reverse();
    let count = values.len() as u64;
    let Some(more) = total(extra, count) else {
        return Err(Memory);
    };
    let is_abstract = is_abstract_class(p, class);
    Ok(Layout {
        is_abstract,
        values: Seq::from_vec(values),
        more,
    })
}
