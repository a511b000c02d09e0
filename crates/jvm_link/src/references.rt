//! The table of what references resolve to.

ghost use Rattle.std.specs.Prelude.{◌≡◌, List, IfOk, OnOk, IfSome};
ghost use Rattle.class_link.specs.Info.{Info};
ghost use Rattle.class_link.specs.declared.linked.Entry.TheVariants.{Class, Field, Method};
ghost use Rattle.class_table.specs.Seen.{IsConsultedOf};
ghost use Rattle.jvm_link.specs.Named.{Consults, ResolvesClass};
ghost use Rattle.jvm_link.specs.References.{IsEntry, IsTableOf, KeepsClass, KeepsField, KeepsMethod, KeepsMethodClass, ResolvesFieldRef, ResolvesMethodRef};

use crate::held::{Held, held_at};
use crate::rows::{Kept, keep};
use crate::search::{class_of, consult, resolve_field, resolve_method};
use crate::{Callee, Search, Site, resolve_class};
use class_link::{FieldRef, MethodRef};
use class_model::{ClassId, Memory, Name};
use class_table::{Consulted, Program};
use program_rules::Fault;
use std::alloc::Global;
use std::marker::Model;

/// What the constant pools of a program's classes resolve to, as far as it was asked. What is kept
/// depends on the program alone, not on the run.
#[derive(Drop)]
pub struct References {
    rows: Vec<Held<Kept>>,
    searching: Search,
}

impl Model for References {
    ghost use Rattle.std.specs.Prelude.{List, Option};
    ghost use Rattle.jvm_link.specs.declared.rows.Kept.{Kept as KeptItem};

    ghost Value = { List (List (Option KeptItem)) };

    ghost view = { λ t. t.rows.items };
}

impl References {
    /// Nothing was asked yet, which is right for each program.
    #[tactic(auto, using(crate::proofs::Keeping::nothing_kept))]
    pub fn new(alloc: Global) -> References
        ensures { (p : List Info) → IsTableOf p result }
    {
        References {
            rows: Vec::new(alloc),
            searching: Search::new(alloc),
        }
    }

    // The class that is kept for an index.
    #[tactic(auto, using(crate::proofs::Keeping::class_kept))]
    fn kept_class(&self, class: ClassId, index: u32) -> Option<ClassId>
        ensures { IfSome result (λ id. KeepsClass self.now class.0 index id) }
    {
        match held_at(&self.rows, class, index) {
            Some(Kept::Class(id)) => Some(id),
            _ => None,
        }
    }

    // The field that is kept for an index, with the class that is named.
    #[tactic(auto, using(crate::proofs::Keeping::field_kept))]
    fn kept_field(&self, class: ClassId, index: u32) -> Option<(ClassId, Result<Site, Fault>)>
        ensures { IfSome result (λ k. KeepsField self.now class.0 index k.0 k.1) }
    {
        match held_at(&self.rows, class, index) {
            Some(Kept::Field(id, answer)) => Some((id, answer)),
            _ => None,
        }
    }

    // The method that is kept for an index, with the class that is named.
    #[inline(always)]
    #[tactic(auto, using(crate::proofs::Keeping::method_kept))]
    fn kept_method(&self, class: ClassId, index: u32) -> Option<(ClassId, Result<Callee, Fault>)>
        ensures { IfSome result (λ k. KeepsMethod self.now class.0 index k.0 k.1) }
    {
        match held_at(&self.rows, class, index) {
            Some(Kept::Method(id, answer)) => Some((id, answer)),
            _ => None,
        }
    }

    /// The class that the reference to a method at an index of a class's constant pool names, where
    /// what it resolves to is kept. It takes two indices and no text.
    #[tactic(auto, using(crate::proofs::Keeping::method_class_kept))]
    pub fn named_class(&self, class: ClassId, index: u32) -> Option<ClassId>
        ensures { IfSome result (λ id. KeepsMethodClass self.now class.0 index id) }
    {
        let kept = self.kept_method(class, index)?;
        Some(kept.0)
    }

    /// What the class at an index of a class's constant pool resolves to (JVMS 5.4.3.1): the class
    /// that its name stands for, or NoClassDefFoundError. The class is consulted. Where it was
    /// asked before it takes two indices and no text, unless there is no such class.
    #[tactic(auto, using(crate::proofs::Finding::named_within, crate::proofs::Keeping::class_right))]
    pub fn class(
        &mut self,
        program: &Program,
        seen: &mut Consulted,
        class: ClassId,
        index: u32,
        name: &Name,
    ) -> Result<Result<ClassId, Fault>, Memory>
        requires table { IsTableOf program.now self.old }
        requires seen { IsConsultedOf program.now seen.old }
        requires entry { IsEntry program.now class.0 index (Class name.now) }
        ensures answer { IfOk result (λ a. ResolvesClass program.now name.now a) }
        ensures consults { OnOk result (Consults program.now name.now seen.old seen.new) }
        ensures table { IsTableOf program.now self.new }
    {
        if let Some(id) = self.kept_class(class, index) {
            consult(program, seen, id)?;
            return Ok(Ok(id));
        }
        let named = resolve_class(*self.rows.allocator(), program, seen, name)?;
        match named {
            Ok(id) => {
                keep(&mut self.rows, program, class, index, Kept::Class(id))?;
                Ok(Ok(id))
            }
            Err(fault) => Ok(Err(fault)),
        }
    }

    /// What the reference to a field at an index of a class's constant pool resolves to (JVMS
    /// 5.4.3.2): a field, NoClassDefFoundError or NoSuchFieldError. The class that it names is
    /// consulted. Where it was asked before it takes two indices and no text, unless there is no
    /// such class.
    #[tactic(auto, using(crate::proofs::Finding::named_within, crate::proofs::Keeping::field_right, crate::proofs::Finding::field_absent))]
    pub fn field(
        &mut self,
        program: &Program,
        seen: &mut Consulted,
        class: ClassId,
        index: u32,
        reference: &FieldRef,
    ) -> Result<Result<Site, Fault>, Memory>
        requires table { IsTableOf program.now self.old }
        requires seen { IsConsultedOf program.now seen.old }
        requires entry { IsEntry program.now class.0 index (Field reference.now) }
        ensures answer { IfOk result (λ a. ResolvesFieldRef program.now reference.now a) }
        ensures consults { OnOk result (
            Consults program.now reference.now.class seen.old seen.new) }
        ensures table { IsTableOf program.now self.new }
    {
        if let Some(kept) = self.kept_field(class, index) {
            consult(program, seen, kept.0)?;
            return Ok(kept.1);
        }
        let named = class_of(*self.rows.allocator(), program, seen, &reference.class)?;
        match named {
            Ok(id) => {
                let answer = resolve_field(program, &mut self.searching, id, reference)?;
                keep(
                    &mut self.rows,
                    program,
                    class,
                    index,
                    Kept::Field(id, answer),
                )?;
                Ok(answer)
            }
            Err(fault) => Ok(Err(fault)),
        }
    }

    // What the reference to a method resolves to is searched for and kept.
    #[inline(never)]
    #[tactic(auto, using(crate::proofs::Finding::named_within, crate::proofs::Keeping::method_right, crate::proofs::Finding::method_absent))]
    fn search_method(
        &mut self,
        program: &Program,
        seen: &mut Consulted,
        class: ClassId,
        index: u32,
        reference: &MethodRef,
    ) -> Result<Result<Callee, Fault>, Memory>
        requires table { IsTableOf program.now self.old }
        requires seen { IsConsultedOf program.now seen.old }
        requires entry { IsEntry program.now class.0 index (Method reference.now) }
        ensures answer { IfOk result (λ a. ResolvesMethodRef program.now reference.now a) }
        ensures consults { OnOk result (
            Consults program.now reference.now.class seen.old seen.new) }
        ensures table { IsTableOf program.now self.new }
    {
        let named = class_of(*self.rows.allocator(), program, seen, &reference.class)?;
        match named {
            Ok(id) => {
                let answer = resolve_method(program, &mut self.searching, id, reference)?;
                keep(
                    &mut self.rows,
                    program,
                    class,
                    index,
                    Kept::Method(id, answer),
                )?;
                Ok(answer)
            }
            Err(fault) => Ok(Err(fault)),
        }
    }

    /// What the reference to a method at an index of a class's constant pool resolves to (JVMS
    /// 5.4.3.3, 5.4.3.4): a method, NoClassDefFoundError, NoSuchMethodError or
    /// IncompatibleClassChangeError. The class that it names is consulted. Where it was asked
    /// before it takes two indices and no text, unless there is no such class.
    #[inline(always)]
    #[tactic(auto, using(crate::proofs::Finding::named_within))]
    pub fn method(
        &mut self,
        program: &Program,
        seen: &mut Consulted,
        class: ClassId,
        index: u32,
        reference: &MethodRef,
    ) -> Result<Result<Callee, Fault>, Memory>
        requires table { IsTableOf program.now self.old }
        requires seen { IsConsultedOf program.now seen.old }
        requires entry { IsEntry program.now class.0 index (Method reference.now) }
        ensures answer { IfOk result (λ a. ResolvesMethodRef program.now reference.now a) }
        ensures consults { OnOk result (
            Consults program.now reference.now.class seen.old seen.new) }
        ensures table { IsTableOf program.now self.new }
    {
        if let Some(kept) = self.kept_method(class, index) {
            consult(program, seen, kept.0)?;
            return Ok(kept.1);
        }
        let answer = self.search_method(program, seen, class, index, reference)?;
        Ok(answer)
    }
}
