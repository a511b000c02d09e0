//! Methods of superinterfaces (JVMS 5.4.3.3, step 3, and 5.4.6, step 3).

ghost use Rattle.std.specs.Prelude.{◌≡◌, ◌<◌, [], length, IfOk, OnOk, IfSome, IfNone};
ghost use Rattle.class_family.specs.Above.{AreWithin, AreAbove};
ghost use Rattle.jvm_link.specs.Candidates.{AreSearched, own_candidate, candidates_of, can_choose, IsCandidate, AreGiving, Adds, IsOwnSpecific, AddsSite, AreSpecific, IsFirstOf, IsChoiceOf, ChoosesAbove};

use crate::family::search;
use crate::heads::{flags_at, is_abstract_at, is_interface};
use crate::methods::declared_method;
use crate::site::Site;
use class_family::{Walker, class_at};
use class_model::flags::{is_private, is_static};
use class_model::{ClassId, Memory, Name};
use class_table::Program;
use std::alloc::Global;

/// The maximally-specific methods that aren't abstract.
#[derive(Clone, Copy)]
pub enum Specific {
    Missing,
    One(Site),
    Several,
}

/// What the superinterfaces of a class give: the maximally-specific methods that aren't abstract,
/// and the first of all that are neither private nor static.
#[derive(Clone, Copy)]
pub struct Choice {
    pub specific: Specific,
    pub first: Option<Site>,
}

/// Whether a method is neither private nor static.
pub fn can_choose(flags: u16) -> bool
    ensures { result ≡ can_choose flags }
{
    !(is_private(flags) || is_static(flags))
}

// The place of the method that an interface gives to choose from: neither private nor static.
fn candidate_place(program: &Program, id: ClassId, name: &Name, desc: &Name) -> Option<usize>
    requires { id.0 < length program.now }
    ensures some { IfSome result (λ place. IsCandidate program.now name.now desc.now id.0 place) }
    ensures none { IfNone result (own_candidate program.now name.now desc.now id.0 ≡ []) }
{
    if !is_interface(program, id) {
        return None;
    }
    let Some(place) = declared_method(program, id, name, desc) else {
        return None;
    };
    if !can_choose(flags_at(program, id, place)) {
        return None;
    }
    Some(place)
}

// Adds a class, where it gives a method.
fn add_giving(
    program: &Program,
    id: ClassId,
    name: &Name,
    desc: &Name,
    into: &mut Vec<u32>,
) -> Result<(), Memory>
    requires { id.0 < length program.now }
    ensures { OnOk result (Adds program.now name.now desc.now id.0 into.old.items into.new.items) }
{
    if let Some(_) = candidate_place(program, id, name, desc) {
        into.push(id.0)?;
    }
    Ok(())
}

// Finds the classes that give a method.
fn find_giving(
    program: &Program,
    classes: &[u32],
    name: &Name,
    desc: &Name,
    found: &mut Vec<u32>,
) -> Result<(), Memory>
    requires within { AreWithin program.now classes.now }
    requires empty { found.old.items ≡ [] }
    ensures { OnOk result (AreGiving program.now name.now desc.now classes.now found.new.items) }
{
    let mut at = 0;
    while at < classes.len() {
        let number = class_at(classes, at);
        add_giving(program, ClassId(number), name, desc, found)?;
        at += 1;
    }
    Ok(())
}

// The method of a class, unless a class that gives one stands below it, or it is abstract.
fn specific_site(
    program: &Program,
    above: &Walker,
    id: ClassId,
    name: &Name,
    desc: &Name,
) -> Option<Site>
    requires { id.0 < length program.now }
    ensures { IsOwnSpecific program.now name.now desc.now above.now id.0 result }
{
    if above.has(id) {
        return None;
    }
    let Some(place) = candidate_place(program, id, name, desc) else {
        return None;
    };
    if is_abstract_at(program, id, place) {
        return None;
    }
    Some(Site { class: id, place })
}

// With one more method, if there is one.
fn with_site(specific: Specific, site: Option<Site>) -> Specific
    ensures { AddsSite specific site result }
{
    let Some(found) = site else {
        return specific;
    };
    match specific {
        Specific::Missing => Specific::One(found),
        Specific::One(_) => Specific::Several,
        Specific::Several => Specific::Several,
    }
}

// The methods of these classes that no class stands below which gives one, and aren't abstract.
fn specific_among(
    program: &Program,
    above: &Walker,
    found: &[u32],
    name: &Name,
    desc: &Name,
) -> Specific
    requires { AreWithin program.now found.now }
    ensures { AreSpecific program.now name.now desc.now above.now found.now result }
{
    let mut specific = Specific::Missing;
    let mut at = 0;
    while at < found.len() {
        let number = class_at(found, at);
        let site = specific_site(program, above, ClassId(number), name, desc);
        specific = with_site(specific, site);
        at += 1;
    }
    specific
}

// The method of the first of these classes.
fn first_site(program: &Program, found: &[u32], name: &Name, desc: &Name) -> Option<Site>
    requires within { AreWithin program.now found.now }
    requires given { AreGiving program.now name.now desc.now found.now found.now }
    ensures { IsFirstOf program.now (candidates_of program.now name.now desc.now found.now) result }
{
    if found.len() == 0 {
        return None;
    }
    let class = ClassId(class_at(found, 0));
    let Some(place) = candidate_place(program, class, name, desc) else {
        return None;
    };
    Some(Site { class, place })
}

// What is chosen from the methods of these classes, each of which gives one.
fn choose_from(
    program: &Program,
    found: &[u32],
    above: &mut Walker,
    name: &Name,
    desc: &Name,
) -> Result<Choice, Memory>
    requires { AreGiving program.now name.now desc.now found.now found.now }
    ensures { IfOk result (λ c. IsChoiceOf program.now name.now desc.now found.now c) }
{
    above.find_all_above(program, found)?;
    let specific = specific_among(program, above, found, name, desc);
    let first = first_site(program, found, name, desc);
    Ok(Choice { specific, first })
}

// What is chosen from the methods of these classes.
fn choose_among(
    program: &Program,
    classes: &[u32],
    above: &mut Walker,
    found: &mut Vec<u32>,
    name: &Name,
    desc: &Name,
) -> Result<Choice, Memory>
    requires within { AreWithin program.now classes.now }
    requires empty { found.old.items ≡ [] }
    ensures { IfOk result (λ c. IsChoiceOf program.now name.now desc.now classes.now c) }
{
    find_giving(program, classes, name, desc, found)?;
    let choice = choose_from(program, found.as_slice(), above, name, desc)?;
    Ok(choice)
}

/// What a search for methods needs, lent from one to the next: the classes that it goes over, and
/// those above any of the interfaces that give a method.
#[derive(Drop)]
pub struct Search {
    pub family: Walker,
    above: Walker,
    giving: Vec<u32>,
}

impl Search {
    /// Nothing was searched yet.
    pub fn new(alloc: Global) -> Search {
        Search {
            family: Walker::new(alloc),
            above: Walker::new(alloc),
            giving: Vec::new(alloc),
        }
    }

    /// What the superinterfaces of a class give, or of arrays of it, where its classes were found.
    pub fn choose(
        &mut self,
        program: &Program,
        id: ClassId,
        array: bool,
        name: &Name,
        desc: &Name,
    ) -> Result<Choice, Memory>
        requires class { id.0 < length program.now }
        requires found { AreSearched program.now id.0 array self.old.family }
        ensures { IfOk result (λ c. ChoosesAbove program.now id.0 array name.now desc.now c) }
    {
        let _len = program.len();
        self.giving.clear();
        let choice = choose_among(
            program,
            self.family.classes(),
            &mut self.above,
            &mut self.giving,
            name,
            desc,
        )?;
        Ok(choice)
    }
}
