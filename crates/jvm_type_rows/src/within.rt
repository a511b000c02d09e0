// Whether what one descriptor says is of what another one says (JVMS 6.5, `checkcast`).

ghost use Rattle.std.specs.Prelude.{◌≡◌, ◌<◌, ◌≤◌, ◌&&◌, drop, length, ℕ, List, false, IfOk};
ghost use Rattle.program_rules.specs.Names.{same, is_array_name, is_listed, descriptor_of};
ghost use Rattle.program_rules.specs.Programs.{supers};
ghost use Rattle.program_rules.specs.Subtypes.{is_within, is_class_within};
ghost use Rattle.class_table.specs.Table.{look, name_at};

use crate::descriptors::descriptor_of;
use crate::texts::{begins_class, is_above_arrays, is_empty, is_same, name_in};
use class_link::names::is_array_name;
use class_model::names::is_text;
use class_model::{ClassId, Memory, Name, Seq};
use class_table::Program;
use std::alloc::Global;

/// Whether a class of the program is this one or stands below it.
pub fn is_below(p: &Program, class: ClassId, name: &Name) -> bool
    requires { class.0 < length p.now }
    ensures { result ≡ is_listed name.now (supers (look p.now) (name_at p.now class.0)) }
{
    let _count = p.len();
    match p.find(name) {
        Some(over) => p.is_subtype(class, over),
        None => false,
    }
}

// Whether two names are the same.
fn is_same_name(one: &Name, other: &Name) -> bool
    ensures { result ≡ same one.now other.now }
{
    one.as_slice() == other.as_slice()
}

// The same of a class by its name, which the program needn't have.
fn is_named_below(p: &Program, class: &Name, name: &Name) -> bool
    ensures { result ≡ is_listed name.now (supers (look p.now) class.now) }
{
    match p.find(class) {
        Some(id) => is_below(p, id, name),
        None => is_same_name(class, name),
    }
}

// Whether a text is the descriptor of this class or array.
fn is_described(alloc: Global, name: &Name, descriptor: &[u16]) -> Result<bool, Memory>
    ensures { IfOk result (λ b. b ≡ same (descriptor_of name.now) descriptor.now) }
{
    let own = descriptor_of(alloc, name.as_slice())?;
    Ok(is_same(&own, descriptor))
}

// Whether a class is of what a descriptor says.
fn is_class_within(
    alloc: Global,
    p: &Program,
    class: &Name,
    descriptor: &[u16],
) -> Result<bool, Memory>
    ensures { IfOk result (λ b.
        b ≡ is_class_within (supers (look p.now) class.now) descriptor.now) }
{
    if is_text(descriptor, b"Ljava/lang/Object;") {
        return Ok(true);
    }
    let units = name_in(descriptor);
    let name = Seq::from_slice(alloc, units)?;
    let described = is_described(alloc, &name, descriptor)?;
    if !described {
        return Ok(false);
    }
    Ok(is_named_below(p, class, &name))
}

// Whether both have a bracket at a place.
fn both_brackets(one: &[u16], other: &[u16], place: usize) -> bool
    requires one { place ≤ length one.now }
    requires other { place ≤ length other.now }
    ensures { result
        ≡ (is_array_name (drop place one.now) && is_array_name (drop place other.now)) }
{
    is_array_name(&one[place..]) && is_array_name(&other[place..])
}

// The number of brackets with which both begin.
#[tactic(auto, using(crate::proofs::Described::past_brackets))]
fn common_brackets(one: &[u16], other: &[u16]) -> usize
    ensures one { result ≤ length one.now }
    ensures other { result ≤ length other.now }
    ensures within { (names : List (List ℕ)) →
        is_within names one.now other.now
        ≡ is_within names (drop result one.now) (drop result other.now) }
    ensures apart { (is_array_name (drop result one.now) && is_array_name (drop result other.now))
        ≡ false }
{
    let mut count = 0;
    while count < one.len() {
        if !both_brackets(one, other, count) {
            return count;
        }
        count += 1;
    }
    count
}

// The same of descriptors that don't begin with brackets both.
fn is_base_within(
    alloc: Global,
    p: &Program,
    class: &Name,
    one: &[u16],
    other: &[u16],
) -> Result<bool, Memory>
    requires { (is_array_name one.now && is_array_name other.now) ≡ false }
    ensures { IfOk result (λ b. b ≡ is_within (supers (look p.now) class.now) one.now other.now) }
{
    if is_empty(other) {
        return Ok(false);
    }
    if is_array_name(one) {
        return Ok(is_above_arrays(other));
    }
    if !begins_class(one) {
        return Ok(is_same(one, other));
    }
    let within = is_class_within(alloc, p, class, other)?;
    Ok(within)
}

/// Whether what the first descriptor says is of what the second one says, by the name of the class
/// behind the first one.
pub fn is_within(
    alloc: Global,
    p: &Program,
    class: &Name,
    one: &[u16],
    other: &[u16],
) -> Result<bool, Memory>
    ensures { IfOk result (λ b. b ≡ is_within (supers (look p.now) class.now) one.now other.now) }
{
    let count = common_brackets(one, other);
    let within = is_base_within(alloc, p, class, &one[count..], &other[count..])?;
    Ok(within)
}
