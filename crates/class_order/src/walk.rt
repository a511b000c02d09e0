//! The walk over all classes that finds those above themselves, in one pass over the supers that
//! they name (Gabow's path-based search for strong components).

ghost use Rattle.std.specs.Prelude.{◌≡◌, ◌<◌, ◌≤◌, nat_eq, length, slice_get, Some, IfOk, IfSome, OnOk, IsTrue, ◌↔◌, ◌+◌, ◌^◌, ◌-◌, true, false};
ghost use Rattle.std.specs.List.{list_any};
ghost use Rattle.class_order.specs.Graph.{supers_of, supers_at, AreWithin};
ghost use Rattle.class_order.specs.Standings.{AreStandings};
ghost use Rattle.class_order.specs.Walks.{Enters, DropsBehind, Joins, Finishes, AllBelow, all_cyclic, ClosesOne, ClosesPart, Meets, Counts, IsLast, AreUpTo, IsWalkOf, KeepsMet, IsMet, IsStart, IsEnd, IsLess};

use crate::links::Links;
use crate::standing::Standing;
use class_model::Memory;
use std::alloc::Global;

/// The walk at one moment.
#[derive(Drop)]
pub struct Walk {
    /// What each class is.
    pub found: Vec<Standing, Global>,
    /// How many of its supers were looked at.
    pub looked: Vec<usize, Global>,
    /// The classes that were entered and aren't closed.
    pub stack: Vec<u32, Global>,
    /// Where the parts of the open classes begin. Those of one part stand above one another.
    pub bounds: Vec<usize, Global>,
    /// The places of open classes with supers that weren't looked at.
    pub path: Vec<usize, Global>,
    /// The next rank.
    pub next: u32,
}

// The super at a place of what a class names.
fn super_at(links: &Links, place: usize) -> Option<u32>
    ensures named { result ≡ slice_get (supers_of links.now) place }
    ensures few { IfSome result (λ s. place + 1 < 2 ^ 64) }
{
    let Some(parent) = links.parent else {
        return links.interfaces.get(place).copied();
    };
    if place == 0 {
        return Some(parent);
    }
    links.interfaces.get(place - 1).copied()
}

// Enters a class: it is a part of its own.
fn enter(walk: &mut Walk, class: u32) -> Result<(), Memory>
    requires { class < length walk.old.found.items }
    ensures { OnOk result (Enters class walk.old walk.new) }
{
    let at = walk.stack.len();
    walk.stack.push(class)?;
    walk.bounds.push(at)?;
    walk.path.push(at)?;
    walk.found[class as usize] = Standing::Open(at);
    Ok(())
}

// Drops the bounds behind a place.
fn drop_behind(bounds: &mut Vec<usize, Global>, place: usize)
    ensures { DropsBehind place bounds.old.items bounds.new.items }
{
    while let Some(bound) = bounds.last() {
        if *bound <= place {
            return;
        }
        bounds.pop();
    }
}

// Joins the part that has this place and all parts behind it.
fn join(walk: &mut Walk, place: usize)
    ensures { Joins place walk.old walk.new }
{
    drop_behind(&mut walk.bounds, place);
}

// Takes the last class from the path.
fn finish(walk: &mut Walk)
    ensures { Finishes walk.old walk.new }
{
    walk.path.pop();
}

/// Whether a class is among these.
pub fn is_among(classes: &[u32], class: u32) -> bool
    ensures { result ≡ list_any (nat_eq class) classes.now }
{
    classes.iter().any(|other| class == *other)
}

// The class at a place of the stack.
fn class_at(walk: &Walk, at: usize) -> u32
    requires { at < length walk.now.stack.items }
    ensures { slice_get walk.now.stack.items at ≡ Some result }
{
    walk.stack[at]
}

// How many supers of a class were looked at.
fn looked_at(walk: &Walk, class: u32) -> usize
    requires { class < length walk.now.looked.items }
    ensures { slice_get walk.now.looked.items class ≡ Some result }
{
    walk.looked[class as usize]
}

// What a class is.
fn standing(walk: &Walk, class: u32) -> Standing
    requires { class < length walk.now.found.items }
    ensures { slice_get walk.now.found.items class ≡ Some result }
{
    walk.found[class as usize]
}

/// The super at a place of what a class names.
pub fn next_super(links: &[Links], class: u32, place: usize) -> Option<u32>
    requires { class < length links.now }
    ensures named { result ≡ slice_get (supers_at links.now class) place }
    ensures few { IfSome result (λ s. place + 1 < 2 ^ 64) }
{
    super_at(links.get(class as usize)?, place)
}

// Whether a class is its own superclass, or one of its own interfaces.
fn names_itself(links: &[Links], class: u32) -> bool
    requires { class < length links.now }
    ensures { result ≡ list_any (nat_eq class) (supers_at links.now class) }
{
    match links.get(class as usize) {
        Some(links) => is_named(links, class),
        None => false,
    }
}

// Whether a class names this one as a super.
fn is_named(links: &Links, class: u32) -> bool
    ensures { result ≡ list_any (nat_eq class) (supers_of links.now) }
{
    match links.parent {
        Some(parent) => class == parent || is_among(&links.interfaces, class),
        None => is_among(&links.interfaces, class),
    }
}

// Finds that these classes stand above themselves.
fn set_cyclic(found: &mut [Standing], classes: &[u32])
    requires { AllBelow classes.now (length found.old) }
    ensures { found.new ≡ all_cyclic found.old classes.now }
{
    for class in classes {
        found[*class as usize] = Standing::Cyclic;
    }
}

// Closes the last part, which is a class alone that doesn't name itself.
fn close_one(walk: &mut Walk, class: u32)
    requires class { class < length walk.old.found.items }
    requires rank { walk.old.next + 1 < 2 ^ 32 }
    ensures { ClosesOne class walk.old walk.new }
{
    let rank = walk.next;
    walk.found[class as usize] = Standing::Ranked(rank);
    walk.next = rank + 1;
    walk.stack.pop();
    walk.bounds.pop();
}

// Closes the last part, whose classes stand above themselves.
fn close_part(walk: &mut Walk, bound: usize)
    requires classes { AllBelow walk.old.stack.items (length walk.old.found.items) }
    requires bound { bound ≤ length walk.old.stack.items }
    ensures { ClosesPart bound walk.old walk.new }
{
    set_cyclic(&mut walk.found, &walk.stack[bound..]);
    walk.stack.truncate(bound);
    walk.bounds.pop();
}

// Meets a super: enters it if it is new, joins the parts from there on if it is open.
fn meet(walk: &mut Walk, class: u32) -> Result<(), Memory>
    requires { class < length walk.old.found.items }
    ensures { OnOk result (Meets class walk.old walk.new) }
{
    match standing(walk, class) {
        Standing::New => enter(walk, class),
        Standing::Open(place) => {
            join(walk, place);
            Ok(())
        }
        _ => Ok(()),
    }
}

// Counts one super more of a class.
fn count(walk: &mut Walk, class: u32, looked: usize)
    requires class { class < length walk.old.looked.items }
    requires few { looked + 1 < 2 ^ 64 }
    ensures { Counts class looked walk.old walk.new }
{
    walk.looked[class as usize] = looked + 1;
}

// Looks at the next super of the last class of the path, which stands in the last part.
fn look(links: &[Links], walk: &mut Walk, at: usize) -> Result<(), Memory>
    requires within { AreWithin links.now (length links.now) }
    requires walk { IsWalkOf links.now walk.old }
    requires last { IsLast at walk.old.path.items }
    requires part { AreUpTo at walk.old.bounds.items }
    ensures walk { OnOk result (IsWalkOf links.now walk.new) }
    ensures met { OnOk result (KeepsMet walk.old walk.new) }
    ensures falls { OnOk result (IsLess links.now walk.old walk.new) }
{
    let class = class_at(walk, at);
    let looked = looked_at(walk, class);
    let Some(up) = next_super(links, class, looked) else {
        finish(walk);
        return Ok(());
    };
    meet(walk, up)?;
    count(walk, class, looked);
    Ok(())
}

// Whether the class at this place is the last one.
fn is_alone(walk: &Walk, bound: usize) -> bool
    requires { bound < length walk.now.stack.items }
    ensures { IsTrue result ↔ (length walk.now.stack.items ≡ bound + 1) }
{
    walk.stack.len() - 1 == bound
}

// Closes the last part.
fn close(links: &[Links], walk: &mut Walk, bound: usize)
    requires few { length links.now < 2 ^ 32 }
    requires walk { IsWalkOf links.now walk.old }
    requires last { IsLast bound walk.old.bounds.items }
    requires path { AllBelow walk.old.path.items bound }
    ensures walk { IsWalkOf links.now walk.new }
    ensures met { KeepsMet walk.old walk.new }
    ensures falls { IsLess links.now walk.old walk.new }
{
    let class = class_at(walk, bound);
    let is_alone = is_alone(walk, bound);
    let is_own_super = names_itself(links, class);
    if is_alone && !is_own_super {
        close_one(walk, class);
        return;
    }
    close_part(walk, bound);
}

// The last of these numbers.
fn last(numbers: &[usize]) -> Option<usize>
    ensures { result ≡ slice_get numbers.now (length numbers.now - 1) }
{
    numbers.last().copied()
}

// Makes one step of the walk: whether there was one to make.
fn step(links: &[Links], walk: &mut Walk) -> Result<bool, Memory>
    requires within { AreWithin links.now (length links.now) }
    requires few { length links.now < 2 ^ 32 }
    requires walk { IsWalkOf links.now walk.old }
    ensures walk { OnOk result (IsWalkOf links.now walk.new) }
    ensures met { OnOk result (KeepsMet walk.old walk.new) }
    ensures end { IfOk result (λ goes_on. goes_on ≡ false → length walk.new.stack.items ≡ 0) }
    ensures falls { IfOk result (λ goes_on. goes_on ≡ true → IsLess links.now walk.old walk.new) }
{
    let Some(bound) = last(&walk.bounds) else {
        return Ok(false);
    };
    let Some(at) = last(&walk.path) else {
        close(links, walk, bound);
        return Ok(true);
    };
    if at < bound {
        close(links, walk, bound);
        return Ok(true);
    }
    look(links, walk, at)?;
    Ok(true)
}

// Makes steps until no class is open.
fn run(links: &[Links], walk: &mut Walk) -> Result<(), Memory>
    requires within { AreWithin links.now (length links.now) }
    requires few { length links.now < 2 ^ 32 }
    requires walk { IsWalkOf links.now walk.old }
    ensures walk { OnOk result (IsWalkOf links.now walk.new) }
    ensures met { OnOk result (KeepsMet walk.old walk.new) }
    ensures end { OnOk result (length walk.new.stack.items ≡ 0) }
{
    'steps: while step(links, walk)? {}
    Ok(())
}

// Goes to a class and all above it.
fn visit(links: &[Links], walk: &mut Walk, class: u32) -> Result<(), Memory>
    requires within { AreWithin links.now (length links.now) }
    requires few { length links.now < 2 ^ 32 }
    requires class { class < length links.now }
    requires walk { IsWalkOf links.now walk.old }
    requires start { length walk.old.stack.items ≡ 0 }
    ensures walk { OnOk result (IsWalkOf links.now walk.new) }
    ensures met { OnOk result (KeepsMet walk.old walk.new) }
    ensures end { OnOk result (length walk.new.stack.items ≡ 0) }
    ensures class { OnOk result (IsMet class walk.new) }
{
    let Standing::New = standing(walk, class) else {
        return Ok(());
    };
    enter(walk, class)?;
    run(links, walk)
}

// The walk before its first step.
fn start(alloc: Global, count: usize) -> Result<Walk, Memory>
    ensures { IfOk result (IsStart count) }
{
    Ok(Walk {
        found: vec![in alloc; Standing::New; count]?,
        looked: vec![in alloc; 0; count]?,
        stack: Vec::new(alloc),
        bounds: Vec::new(alloc),
        path: Vec::new(alloc),
        next: 0,
    })
}

// Goes to each class.
fn visit_all(links: &[Links], walk: &mut Walk) -> Result<(), Memory>
    requires within { AreWithin links.now (length links.now) }
    requires few { length links.now < 2 ^ 32 }
    requires walk { IsWalkOf links.now walk.old }
    requires start { length walk.old.stack.items ≡ 0 }
    ensures { OnOk result (IsEnd links.now walk.new) }
{
    for class in 0..links.len() as u32 {
        visit(links, walk, class)?;
    }
    Ok(())
}

/// What is found of each class: exactly those above themselves are `Cyclic`, and each other one is
/// `Ranked`, above its supers. It takes time by the number of classes and of supers that they name.
pub fn standings(alloc: Global, links: &[Links]) -> Result<Vec<Standing, Global>, Memory>
    requires within { AreWithin links.now (length links.now) }
    requires few { length links.now < 2 ^ 32 }
    ensures { IfOk result (λ found. AreStandings links.now found.items) }
{
    let mut walk = start(alloc, links.len())?;
    visit_all(links, &mut walk)?;
    Ok(walk.found)
}
