//! The table of what objects select.

ghost use Rattle.std.specs.Prelude.{◌≡◌, ◌<◌, List, Ok, length, IfOk, IfSome};
ghost use Rattle.class_link.specs.Info.{Info};
ghost use Rattle.class_link.specs.declared.linked.Entry.TheVariants.{Method};
ghost use Rattle.program_rules.specs.Resolution.{same_bool};
ghost use Rattle.jvm_link.specs.References.{IsEntry, IsTableOf, KeepsNamed, KeepsVirtual, ResolvesMethodRef};
ghost use Rattle.jvm_link.specs.Selecting.{SelectsByName, SelectsVirtual, same_receiver};

use crate::held::{Held, held_at};
use crate::rows::{Kept, Receiver, keep};
use crate::{Callee, Search};
use class_link::MethodRef;
use class_model::{ClassId, Memory};
use class_table::Program;
use program_rules::Fault;
use std::alloc::Global;
use std::marker::Model;

/// What objects select at the calls of a program's classes: for each index of a constant pool what
/// the last object selected there. What is kept depends on the program alone, not on the run.
#[derive(Drop)]
pub struct Selections {
    rows: Vec<Held<Kept>>,
    searching: Search,
}

impl Model for Selections {
    ghost use Rattle.std.specs.Prelude.{List, Option};
    ghost use Rattle.jvm_link.specs.declared.rows.Kept.{Kept as KeptItem};

    ghost Value = { List (List (Option KeptItem)) };

    ghost view = { λ t. t.rows.items };
}

// Whether two flags agree.
#[inline(always)]
fn agree(one: bool, other: bool) -> bool
    ensures { result ≡ same_bool one other }
{
    if one { other } else { !other }
}

// Whether two objects are of one class, or arrays of it.
#[inline(always)]
fn are_alike(one: Receiver, other: Receiver) -> bool
    ensures { result ≡ same_receiver one other }
{
    one.class.0 == other.class.0 && agree(one.array, other.array)
}

// What an object of this class selects of the resolved method.
#[tactic(auto, using(crate::proofs::Selected::has_callee))]
fn find_virtual(
    program: &Program,
    searching: &mut Search,
    to: Receiver,
    reference: &MethodRef,
    resolved: Callee,
) -> Result<Result<Callee, Fault>, Memory>
    requires class { to.class.0 < length program.now }
    requires resolved { ResolvesMethodRef program.now reference.now (Ok resolved) }
    ensures { IfOk result (λ a. SelectsVirtual program.now reference.now to a) }
{
    let answer = crate::select_virtual(
        program, searching, to.class, to.array, reference, resolved,
    )?;
    Ok(answer)
}

// What it selects by name and descriptor.
fn find_named(
    program: &Program,
    searching: &mut Search,
    to: Receiver,
    reference: &MethodRef,
) -> Result<Result<Callee, Fault>, Memory>
    requires { to.class.0 < length program.now }
    ensures { IfOk result (λ a. SelectsByName program.now reference.now to a) }
{
    let answer = crate::select_named(program, searching, to.class, to.array, reference)?;
    Ok(answer)
}

impl Selections {
    /// Nothing was asked yet, which is right for each program.
    #[tactic(auto, using(crate::proofs::Keeping::nothing_kept))]
    pub fn new(alloc: Global) -> Selections
        ensures { (p : List Info) → IsTableOf p result }
    {
        Selections {
            rows: Vec::new(alloc),
            searching: Search::new(alloc),
        }
    }

    // What is kept of such an object, of the resolved method.
    #[inline(always)]
    #[tactic(auto, using(crate::proofs::Selected::virtual_kept))]
    fn kept_virtual(
        &self,
        class: ClassId,
        index: u32,
        to: Receiver,
    ) -> Option<Result<Callee, Fault>>
        ensures { IfSome result (λ a. KeepsVirtual self.now class.0 index to a) }
    {
        match held_at(&self.rows, class, index) {
            Some(Kept::Virtual(of, answer)) => {
                if are_alike(of, to) {
                    Some(answer)
                } else {
                    None
                }
            }
            _ => None,
        }
    }

    // What is kept of such an object, by name and descriptor.
    #[inline(always)]
    #[tactic(auto, using(crate::proofs::Selected::named_kept))]
    fn kept_named(&self, class: ClassId, index: u32, to: Receiver) -> Option<Result<Callee, Fault>>
        ensures { IfSome result (λ a. KeepsNamed self.now class.0 index to a) }
    {
        match held_at(&self.rows, class, index) {
            Some(Kept::Named(of, answer)) => {
                if are_alike(of, to) {
                    Some(answer)
                } else {
                    None
                }
            }
            _ => None,
        }
    }

    // What the object selects of the resolved method is searched for and kept.
    #[inline(never)]
    #[tactic(auto, using(crate::proofs::Selected::virtual_right))]
    fn search_virtual(
        &mut self,
        program: &Program,
        class: ClassId,
        index: u32,
        reference: &MethodRef,
        resolved: Callee,
        to: Receiver,
    ) -> Result<Result<Callee, Fault>, Memory>
        requires table { IsTableOf program.now self.old }
        requires entry { IsEntry program.now class.0 index (Method reference.now) }
        requires resolved { ResolvesMethodRef program.now reference.now (Ok resolved) }
        requires class { to.class.0 < length program.now }
        ensures answer { IfOk result (λ a. SelectsVirtual program.now reference.now to a) }
        ensures table { IsTableOf program.now self.new }
    {
        let answer = find_virtual(program, &mut self.searching, to, reference, resolved)?;
        keep(
            &mut self.rows,
            program,
            class,
            index,
            Kept::Virtual(to, answer),
        )?;
        Ok(answer)
    }

    // What it selects by name and descriptor is searched for and kept.
    #[inline(never)]
    #[tactic(auto, using(crate::proofs::Selected::named_right))]
    fn search_named(
        &mut self,
        program: &Program,
        class: ClassId,
        index: u32,
        reference: &MethodRef,
        to: Receiver,
    ) -> Result<Result<Callee, Fault>, Memory>
        requires table { IsTableOf program.now self.old }
        requires entry { IsEntry program.now class.0 index (Method reference.now) }
        requires class { to.class.0 < length program.now }
        ensures answer { IfOk result (λ a. SelectsByName program.now reference.now to a) }
        ensures table { IsTableOf program.now self.new }
    {
        let answer = find_named(program, &mut self.searching, to, reference)?;
        keep(
            &mut self.rows,
            program,
            class,
            index,
            Kept::Named(to, answer),
        )?;
        Ok(answer)
    }

    /// The method that an object of this class, or an array of it, runs at an `invokevirtual` whose
    /// reference is at an index of a class's constant pool and resolves to this method (JVMS
    /// 5.4.6): as `select_virtual` of `jvm_link`. Where the last object there was of this class it
    /// takes two indices.
    #[inline(always)]
    pub fn select_virtual(
        &mut self,
        program: &Program,
        class: ClassId,
        index: u32,
        reference: &MethodRef,
        resolved: Callee,
        to: Receiver,
    ) -> Result<Result<Callee, Fault>, Memory>
        requires table { IsTableOf program.now self.old }
        requires entry { IsEntry program.now class.0 index (Method reference.now) }
        requires resolved { ResolvesMethodRef program.now reference.now (Ok resolved) }
        requires class { to.class.0 < length program.now }
        ensures answer { IfOk result (λ a. SelectsVirtual program.now reference.now to a) }
        ensures table { IsTableOf program.now self.new }
    {
        if let Some(answer) = self.kept_virtual(class, index, to) {
            return Ok(answer);
        }
        let answer = self.search_virtual(program, class, index, reference, resolved, to)?;
        Ok(answer)
    }

    /// The method that an object of this class, or an array of it, runs at an `invokeinterface`,
    /// and the one that an `invokespecial` runs from this superclass on (JVMS 5.4.6, 6.5): as
    /// `select_named` of `jvm_link`. Where the last object there was of this class it takes two
    /// indices.
    #[inline(always)]
    pub fn select_named(
        &mut self,
        program: &Program,
        class: ClassId,
        index: u32,
        reference: &MethodRef,
        to: Receiver,
    ) -> Result<Result<Callee, Fault>, Memory>
        requires table { IsTableOf program.now self.old }
        requires entry { IsEntry program.now class.0 index (Method reference.now) }
        requires class { to.class.0 < length program.now }
        ensures answer { IfOk result (λ a. SelectsByName program.now reference.now to a) }
        ensures table { IsTableOf program.now self.new }
    {
        if let Some(answer) = self.kept_named(class, index, to) {
            return Ok(answer);
        }
        let answer = self.search_named(program, class, index, reference, to)?;
        Ok(answer)
    }
}
