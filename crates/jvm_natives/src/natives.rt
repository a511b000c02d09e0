//! What native methods are asked with, found once for a program.

ghost use Rattle.std.specs.Prelude.{◌≡◌, ◌<◌, length, slice_get, Some, IfOk};
ghost use Rattle.program_rules.specs.Deeds.{making_name};
ghost use Rattle.class_table.specs.Table.{look, names};
ghost use Rattle.lib_core.specs.Known.{IsKnown};
ghost use Rattle.jvm_world.specs.Finding.{Finds};
ghost use Rattle.jvm_natives.specs.Natives.{AreNatives, FindsMade, made_names};

use class_model::names::ascii;
use class_model::{ClassId, Memory, Name, Seq};
use class_table::Program;
use lib_core::Known;
use program_rules::Making;
use std::alloc::Global;

/// The names of a program's classes by number, and the numbers of those of which native methods
/// make objects.
#[derive(Drop)]
pub struct Natives {
    pub names: Seq<Name>,
    pub known: Known,
}

// The name of a class of which native methods make objects.
fn name_of(alloc: Global, making: Making) -> Result<Name, Memory>
    ensures { IfOk result (λ n. n ≡ making_name making) }
{
    match making {
        Making::Text => ascii(alloc, "java/lang/String"),
        Making::List => ascii(alloc, "java/util/ArrayList"),
        Making::Set => ascii(alloc, "java/util/HashSet"),
        Making::Iterator => ascii(alloc, "mt/Iter"),
        Making::Optional => ascii(alloc, "java/util/Optional"),
        Making::Integer => ascii(alloc, "java/lang/Integer"),
        Making::Long => ascii(alloc, "java/lang/Long"),
        Making::Short => ascii(alloc, "java/lang/Short"),
        Making::Byte => ascii(alloc, "java/lang/Byte"),
        Making::Character => ascii(alloc, "java/lang/Character"),
        Making::Boolean => ascii(alloc, "java/lang/Boolean"),
    }
}

// Its number, if the program has it.
fn id_of(alloc: Global, p: &Program, making: Making) -> Result<Option<ClassId>, Memory>
    ensures { IfOk result (FindsMade p.now making) }
{
    let name = name_of(alloc, making)?;
    Ok(p.find(&name))
}

// The numbers of those classes; none where the program lacks one.
#[tactic(auto, using(crate::proofs::Found::known_is, crate::proofs::Found::lacks_made))]
fn known_in(alloc: Global, p: &Program) -> Result<Option<Known>, Memory>
    ensures { IfOk result (Finds (look p.now) made_names (IsKnown (names p.now))) }
{
    let _ = p.len();
    let Some(text) = id_of(alloc, p, Making::Text)? else {
        return Ok(None);
    };
    let Some(list) = id_of(alloc, p, Making::List)? else {
        return Ok(None);
    };
    let Some(set) = id_of(alloc, p, Making::Set)? else {
        return Ok(None);
    };
    let Some(iterator) = id_of(alloc, p, Making::Iterator)? else {
        return Ok(None);
    };
    let Some(optional) = id_of(alloc, p, Making::Optional)? else {
        return Ok(None);
    };
    let Some(integer) = id_of(alloc, p, Making::Integer)? else {
        return Ok(None);
    };
    let Some(long) = id_of(alloc, p, Making::Long)? else {
        return Ok(None);
    };
    let Some(short) = id_of(alloc, p, Making::Short)? else {
        return Ok(None);
    };
    let Some(byte) = id_of(alloc, p, Making::Byte)? else {
        return Ok(None);
    };
    let Some(character) = id_of(alloc, p, Making::Character)? else {
        return Ok(None);
    };
    let Some(boolean) = id_of(alloc, p, Making::Boolean)? else {
        return Ok(None);
    };
    Ok(Some(Known {
        text,
        list,
        set,
        iterator,
        optional,
        integer,
        long,
        short,
        byte,
        character,
        boolean,
    }))
}

// The name of the class of a number.
#[tactic(auto, using(crate::proofs::Found::name_is))]
fn name_at(p: &Program, class: ClassId) -> Result<Name, Memory>
    requires { class.0 < length p.now }
    ensures { IfOk result (λ n. slice_get (names p.now) class.0 ≡ Some n) }
{
    let info = p.info(class);
    let name = info.name().copy()?;
    Ok(name)
}

// The names of all classes by their numbers.
#[tactic(auto, using(crate::proofs::Found::all_names))]
fn names_of(alloc: Global, p: &Program) -> Result<Seq<Name>, Memory>
    ensures { IfOk result (λ ns. ns ≡ names p.now) }
{
    let count = p.len();
    let mut list = Vec::with_capacity(alloc, count)?;
    let mut at = 0;
    while at < count {
        let name = name_at(p, ClassId(at as u32))?;
        list.push(name)?;
        at += 1;
    }
    Ok(Seq::from_vec(list))
}

impl Natives {
    /// Those of a program; none where it lacks a class of which native methods make objects.
    pub fn find(alloc: Global, p: &Program) -> Result<Option<Natives>, Memory>
        ensures { IfOk result (Finds (look p.now) made_names (AreNatives p.now)) }
    {
        let Some(known) = known_in(alloc, p)? else {
            return Ok(None);
        };
        let names = names_of(alloc, p)?;
        Ok(Some(Natives { names, known }))
    }
}
