//! The methods of a test class: those of the class and of its superclasses that play a part.

ghost use Rattle.std.specs.Prelude.{◌≡◌, ◌++◌, ◌∷◌, [], IfOk, OnOk};
ghost use Rattle.std.specs.Option.{option_copied};
ghost use Rattle.test_discovery.specs.Listed.{files_of, file_above, head_of, listed_with};
ghost use Rattle.test_discovery.specs.Listed.{listed_in, listed_of, downwards};
ghost use Rattle.test_discovery.specs.Heads.{has_head, AddsAt, AddsHeads};
ghost use Rattle.test_discovery.specs.Searching.{behind, rising_in};

use crate::annotations::marks_of;
use crate::marks::Marks;
use class_link::{own_name, text_named};
use class_model::{Class, Const, Member, Memory, Name, Seq};
use class_table::Program;
use mt_pool::class_name_of;
use std::alloc::Global;
use std::collections::BTreeSet;

/// A method that plays a part in a test: the class that declares it, its name, its descriptor, its
/// access flags and its parts.
#[derive(Drop)]
pub struct Listed {
    pub class: Name,
    pub name: Name,
    pub desc: Name,
    pub flags: u16,
    pub marks: Marks,
}

// The class file of a name.
fn file_of<'a>(program: &'a Program, name: &Name) -> Option<&'a Class>
    ensures { option_copied result ≡ files_of program.now name.now }
{
    program.file_class(program.find(name)?)
}

// The class file of the superclass.
fn file_above<'a>(program: &'a Program, class: &Class) -> Option<&'a Class>
    ensures { option_copied result ≡ file_above (files_of program.now) class.now }
{
    file_of(program, class_name_of(class.pool.as_slice(), class.parent)?)
}

/// The class file of a name and those of its superclasses, the lowest first, as many at most as the
/// program has classes.
pub fn rising<'a>(
    alloc: Global,
    program: &'a Program,
    name: &Name,
) -> Result<Vec<&'a Class>, Memory>
    ensures { IfOk result (λ cs. behind cs.items ≡ rising_in program.now name.now) }
{
    let mut classes = Vec::new(alloc);
    let mut next = file_of(program, name);
    for _turn in 0..program.len() {
        let Some(class) = next else {
            return Ok(classes);
        };
        classes.push(class)?;
        next = file_above(program, class);
    }
    Ok(classes)
}

// The name and the descriptor of a method.
fn head_of(alloc: Global, pool: &[Const], member: &Member) -> Result<(Name, Name), Memory>
    ensures { IfOk result (λ head. head ≡ head_of pool.now member.now) }
{
    Ok((
        text_named(alloc, pool, member.name)?,
        text_named(alloc, pool, member.desc)?,
    ))
}

fn push_as_listed(
    listed: &mut Seq<Listed>,
    class: Name,
    head: (Name, Name),
    flags: u16,
    marks: Marks,
) -> Result<(), Memory>
    ensures { OnOk result (listed.new ≡ listed.old ++ listed_with class head flags marks ∷ []) }
{
    let (name, desc) = head;
    listed.push(Listed {
        class,
        name,
        desc,
        flags,
        marks,
    })
}

// Whether a lower class declares a method of this name and descriptor.
fn is_hidden(hidden: &BTreeSet<(Name, Name)>, head: &(Name, Name)) -> bool
    ensures { result ≡ has_head hidden.now head.now }
{
    hidden.contains(head)
}

fn push_listed_at(
    alloc: Global,
    listed: &mut Seq<Listed>,
    hidden: &BTreeSet<(Name, Name)>,
    class: &Class,
    member: &Member,
) -> Result<(), Memory>
    ensures { OnOk result (AddsAt hidden.now class.now member.now listed.old listed.new) }
{
    let pool = class.pool.as_slice();
    let marks = marks_of(alloc, pool, member.attrs.as_slice())?;
    if marks.is_marked() {
        let head = head_of(alloc, pool, member)?;
        if !is_hidden(hidden, &head) {
            push_as_listed(listed, own_name(alloc, class)?, head, member.flags, marks)?;
        }
    }
    Ok(())
}

// The listed methods of one class.
fn listed_in(
    alloc: Global,
    hidden: &BTreeSet<(Name, Name)>,
    class: &Class,
) -> Result<Seq<Listed>, Memory>
    ensures { IfOk result (λ listed. listed ≡ listed_in (has_head hidden.now) class.now) }
{
    let mut listed = Seq::new(alloc);
    for member in class.methods.as_slice() {
        push_listed_at(alloc, &mut listed, hidden, class, member)?;
    }
    Ok(listed)
}

fn add_heads(
    alloc: Global,
    heads: &mut BTreeSet<(Name, Name)>,
    pool: &[Const],
    members: &[Member],
) -> Result<(), Memory>
    ensures { OnOk result (AddsHeads heads.old pool.now members.now heads.new) }
{
    for member in members {
        heads.insert(head_of(alloc, pool, member)?)?;
    }
    Ok(())
}

/// The listed methods of a class and its superclasses, class by class, the lowest first.
#[tactic(auto, unfolding(crate::specs::Listed::listed_of))]
pub fn listed_of(alloc: Global, classes: &[&Class]) -> Result<Vec<Seq<Listed>>, Memory>
    ensures { IfOk result (λ listed. listed.items ≡ listed_of (behind classes.now)) }
{
    let mut listed = Vec::new(alloc);
    let mut lower = BTreeSet::new(alloc);
    for class in classes {
        listed.push(listed_in(alloc, &lower, class)?)?;
        add_heads(
            alloc,
            &mut lower,
            class.pool.as_slice(),
            class.methods.as_slice(),
        )?;
    }
    Ok(listed)
}

/// One list behind the other, from the last one on: the methods of the highest class come first.
#[tactic(auto, unfolding(crate::specs::Listed::downwards))]
pub fn downwards(alloc: Global, mut by_class: Vec<Seq<Listed>>) -> Result<Seq<Listed>, Memory>
    ensures { IfOk result (λ listed. listed ≡ downwards by_class.items) }
{
    let mut all = Vec::new(alloc);
    while let Some(list) = by_class.pop() {
        let mut list = list.into_vec();
        all.append(&mut list)?;
    }
    Ok(Seq::from_vec(all))
}
