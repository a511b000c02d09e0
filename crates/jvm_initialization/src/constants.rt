//! The static fields that get a constant at the begin of their class (JVMS 4.7.2, 5.5, step 6).

ghost use Rattle.std.specs.Prelude.{◌≡◌, ◌<◌, ◌^◌, map, length, Some, None, true, false, IfOk, OnOk, IfSome, IfNone};
ghost use Rattle.program_rules.specs.Names.{Name as Named};
ghost use Rattle.program_rules.specs.Linked.{TextField};
ghost use Rattle.machine_rules.specs.NewObjects.{literal};
ghost use Rattle.machine_rules.specs.Initialisation.{sets_constant, sets_constants, with_text};
ghost use Rattle.class_link.specs.Symbols.{kind_of};
ghost use Rattle.class_link.specs.View.{field_of, constant_of};
ghost use Rattle.class_table.specs.Table.{name_at};
ghost use Rattle.jvm_world.specs.View.{IsWorldOf, IsKept};
ghost use Rattle.jvm_initialization.specs.Constants.{constant_at, constants_in, static_constant, sets_field, words_after, texts_after, words_with, words_with_text, texts_with, texts_in, have_room, Sets, TellsSet, SetsOrEnds};
ghost use Rattle.jvm_initialization.specs.Begins.{setting_at};

use crate::members::static_constant;
use class_link::{FieldConstant, LinkedField};
use class_model::flags::is_interface;
use class_model::{ClassId, Kind, Memory, Name};
use class_table::Program;
use jvm_rows::narrow_to;
use jvm_world::{Made, World};
use machine_rules::Stop;
use program_rules::Value;
use std::alloc::Global;

// ---- room for texts

// The words in use once an object of a text is made, within a limit.
fn words_with_new(limit: u32, used: u32, units: usize) -> Option<u32>
    ensures some { IfSome result (λ u. (t : Named) → length t ≡ units →
        words_with_text false limit used t ≡ Some u) }
    ensures none { IfNone result ((t : Named) → length t ≡ units →
        words_with_text false limit used t ≡ None) }
{
    if limit < used || limit - used < 2 {
        return None;
    }
    if units > (limit - used - 2) as usize {
        return None;
    }
    Some(used + 2 + units as u32)
}

// Whether a text has its object, or was counted.
fn has_object(world: &World, counted: &Made, text: &Name) -> bool
    ensures { result ≡ texts_in world.now counted.now text.now }
{
    match counted.get(text) {
        Some(_) => return true,
        None => {}
    }
    match world.literals.get(text) {
        Some(_) => true,
        None => false,
    }
}

// Counts a text, if it has no object yet; the words in use then, within the limit of the heap.
fn count_text(
    world: &World,
    counted: &mut Made,
    used: u32,
    text: &Name,
) -> Result<Option<u32>, Memory>
    ensures words { IfOk result (λ u. words_with_text (texts_in world.now counted.old text.now)
        world.now.limits.heap used text.now ≡ u) }
    ensures texts { IfOk result (λ o. IfSome o (λ u. (n : Named) →
        texts_in world.now counted.new n
        ≡ texts_with (texts_in world.now counted.old) (TextField text.now) n)) }
{
    if has_object(world, counted, text) {
        return Ok(Some(used));
    }
    let Some(words) = words_with_new(world.limits.heap, used, text.len()) else {
        return Ok(None);
    };
    counted.add(text, 0)?;
    Ok(Some(words))
}

// The words in use once a constant was set, within the limit of the heap.
fn count(
    world: &World,
    counted: &mut Made,
    used: u32,
    constant: &FieldConstant,
) -> Result<Option<u32>, Memory>
    ensures words { IfOk result (λ u. words_with (texts_in world.now counted.old)
        world.now.limits.heap used (constant_of constant.now) ≡ u) }
    ensures texts { IfOk result (λ o. IfSome o (λ u. (n : Named) →
        texts_in world.now counted.new n
        ≡ texts_with (texts_in world.now counted.old) (constant_of constant.now) n)) }
{
    match constant {
        FieldConstant::Int(_) => Ok(Some(used)),
        FieldConstant::Long(_) => Ok(Some(used)),
        FieldConstant::Text(text) => {
            let words = count_text(world, counted, used, text)?;
            Ok(words)
        }
    }
}

// The words in use once a field got its constant, if it gets one.
fn count_field(
    world: &World,
    counted: &mut Made,
    used: u32,
    field: &LinkedField,
    all_static: bool,
) -> Result<Option<u32>, Memory>
    ensures words { IfOk result (λ o. words_after (texts_in world.now counted.old)
        world.now.limits.heap used (static_constant all_static (field_of field.now)) ≡ o) }
    ensures texts { IfOk result (λ o. IfSome o (λ u. (n : Named) →
        texts_in world.now counted.new n
        ≡ texts_after (texts_in world.now counted.old)
        (static_constant all_static (field_of field.now)) n)) }
{
    match static_constant(field, all_static) {
        Some(constant) => {
            let words = count(world, counted, used, constant)?;
            Ok(words)
        }
        None => Ok(Some(used)),
    }
}

// Whether the heap has room for the texts of these fields.
fn fields_have_room(
    world: &World,
    counted: &mut Made,
    fields: &[LinkedField],
    all_static: bool,
) -> Result<bool, Memory>
    ensures { IfOk result (λ b. b ≡ have_room (texts_in world.now counted.old)
        world.now.limits.heap world.now.heap.used
        (constants_in all_static 0 (map field_of fields.now))) }
{
    let mut used = world.heap.words();
    let mut at = 0;
    while at < fields.len() {
        let words = count_field(world, counted, used, &fields[at], all_static)?;
        let Some(words) = words else {
            return Ok(false);
        };
        used = words;
        at += 1;
    }
    Ok(true)
}

// Whether all constants of a class can be set.
#[tactic(auto, unfolding(class_link::specs::View::linked_of))]
fn have_room(world: &World, alloc: Global, p: &Program, class: ClassId) -> Result<bool, Memory>
    requires { class.0 < length p.now }
    ensures { IfOk result (λ b. TellsSet p.now world.now
        (setting_at p.now world.now.limits class.0) b) }
{
    let linked = p.info(class).linked();
    let all_static = is_interface(linked.flags);
    let mut counted = Made::new(alloc);
    let room = fields_have_room(world, &mut counted, linked.fields.as_slice(), all_static)?;
    Ok(room)
}

// ---- constants are set

// Sets the text of a static field; false where the heap would be passed.
fn set_text(
    world: &mut World,
    p: &Program,
    class: ClassId,
    place: u32,
    text: &Name,
) -> Result<bool, Memory>
    requires world { IsWorldOf p.now world.old }
    requires class { class.0 < length p.now }
    ensures sets { IfOk result (λ b. Sets p.now world.old world.new (λ v.
        with_text (name_at p.now class.0) place (literal world.old.limits v text.now)) b) }
    ensures kept { OnOk result (IsKept p.now world.old world.new) }
{
    let Some(object) = world.literal(p, text)? else {
        return Ok(false);
    };
    world.set_static(p, class, place, Value::Ref(object))?;
    Ok(true)
}

// Sets the constant of a static field; false where the heap would be passed.
fn set_constant(
    world: &mut World,
    p: &Program,
    class: ClassId,
    place: u32,
    kind: &Kind,
    constant: &FieldConstant,
) -> Result<bool, Memory>
    requires world { IsWorldOf p.now world.old }
    requires class { class.0 < length p.now }
    ensures sets { IfOk result (λ b. Sets p.now world.old world.new (λ v.
        sets_constant world.old.limits (name_at p.now class.0)
        (constant_at place (kind_of kind.now) (constant_of constant.now)) v
        (constant_of constant.now)) b) }
    ensures kept { OnOk result (IsKept p.now world.old world.new) }
{
    match constant {
        FieldConstant::Int(z) => {
            let value = narrow_to(kind, Value::Int(*z));
            world.set_static(p, class, place, value)?;
            Ok(true)
        }
        FieldConstant::Long(z) => {
            world.set_static(p, class, place, Value::Long(*z))?;
            Ok(true)
        }
        FieldConstant::Text(text) => {
            let done = set_text(world, p, class, place, text)?;
            Ok(done)
        }
    }
}

/// The number of a place. A class with 2^32 fields or more wants more memory than there is.
pub fn number_of(place: usize) -> Result<u32, Memory>
    ensures { IfOk result (λ n. n ≡ place) }
{
    if place > u32::MAX as usize {
        return Err(Memory);
    }
    Ok(place as u32)
}

// Sets the constant of the field at a place, if it gets one; false where the heap would be passed.
fn set_field(
    world: &mut World,
    p: &Program,
    class: ClassId,
    place: usize,
    field: &LinkedField,
    all_static: bool,
) -> Result<bool, Memory>
    requires world { IsWorldOf p.now world.old }
    requires class { class.0 < length p.now }
    ensures sets { IfOk result (Sets p.now world.old world.new (sets_field world.old.limits
        (name_at p.now class.0) place (field_of field.now).kind
        (static_constant all_static (field_of field.now)))) }
    ensures kept { OnOk result (IsKept p.now world.old world.new) }
{
    let _len = p.len();
    match static_constant(field, all_static) {
        Some(constant) => {
            let number = number_of(place)?;
            let done = set_constant(world, p, class, number, &field.kind, constant)?;
            Ok(done)
        }
        None => Ok(true),
    }
}

// Sets the constants of these fields, for which the heap has room.
fn set_fields(
    world: &mut World,
    p: &Program,
    class: ClassId,
    fields: &[LinkedField],
    all_static: bool,
) -> Result<(), Memory>
    requires world { IsWorldOf p.now world.old }
    requires class { class.0 < length p.now }
    requires room { TellsSet p.now world.old (sets_constants world.old.limits
        (name_at p.now class.0) (constants_in all_static 0 (map field_of fields.now))) true }
    ensures sets { OnOk result (Sets p.now world.old world.new (sets_constants world.old.limits
        (name_at p.now class.0) (constants_in all_static 0 (map field_of fields.now))) true) }
    ensures kept { OnOk result (IsKept p.now world.old world.new) }
{
    let mut at = 0;
    while at < fields.len() {
        let done = set_field(world, p, class, at, &fields[at], all_static)?;
        if !done {
            return Ok(());
        }
        at += 1;
    }
    Ok(())
}

// Sets all constants of a class, for which the heap has room.
#[tactic(auto, unfolding(class_link::specs::View::linked_of))]
fn set_all(world: &mut World, p: &Program, class: ClassId) -> Result<(), Memory>
    requires world { IsWorldOf p.now world.old }
    requires class { class.0 < length p.now }
    requires room { TellsSet p.now world.old (setting_at p.now world.old.limits class.0) true }
    ensures sets { OnOk result (Sets p.now world.old world.new
        (setting_at p.now world.old.limits class.0) true) }
    ensures kept { OnOk result (IsKept p.now world.old world.new) }
{
    let linked = p.info(class).linked();
    let all_static = is_interface(linked.flags);
    set_fields(world, p, class, linked.fields.as_slice(), all_static)?;
    Ok(())
}

/// Sets the constants of a class's static fields, each text made at its first use. It is false
/// where the heap would be passed: then nothing was set, and the run is over.
pub fn set_constants(
    world: &mut World,
    alloc: Global,
    p: &Program,
    class: ClassId,
) -> Result<bool, Memory>
    requires world { IsWorldOf p.now world.old }
    requires class { class.0 < length p.now }
    ensures sets { IfOk result (SetsOrEnds p.now world.old world.new
        (setting_at p.now world.old.limits class.0)) }
    ensures kept { OnOk result (IsKept p.now world.old world.new) }
{
    if !have_room(world, alloc, p, class)? {
        world.end(p, Stop::HeapPassed);
        return Ok(false);
    }
    set_all(world, p, class)?;
    Ok(true)
}
