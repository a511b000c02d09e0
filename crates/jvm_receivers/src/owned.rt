//! Whether a reference to a method names the class itself in which it stands, or a direct
//! superinterface of it.

ghost use Rattle.std.specs.Prelude.{◌≡◌, ◌<◌, List, length, IfOk};
ghost use Rattle.program_rules.specs.Names.{is_listed, same};
ghost use Rattle.program_rules.specs.Outlines.{interfaces_in};
ghost use Rattle.class_link.specs.Info.{Info};
ghost use Rattle.class_link.specs.declared.linked.Entry.TheVariants.{Method};
ghost use Rattle.class_table.specs.Table.{name_at};
ghost use Rattle.jvm_link.specs.Sites.{outline_at};
ghost use Rattle.jvm_link.specs.References.{IsEntry};
ghost use Rattle.jvm_receivers.specs.Owned.{AreOwned};
ghost use Rattle.jvm_receivers.specs.Receivers.{is_own};

use class_link::{MethodRef, Shared};
use class_model::{ClassId, Memory, Name};
use class_table::Program;
use jvm_link::{Held, held_at, hold};
use std::alloc::Global;
use std::marker::Model;

/// Whether the references to methods in the constant pools of a program's classes name the class
/// itself or a direct superinterface of it, as far as it was asked. What is held depends on the
/// program alone, not on the run.
#[derive(Drop)]
pub struct Owned {
    rows: Vec<Held<bool>>,
}

impl Model for Owned {
    ghost use Rattle.std.specs.Prelude.{List, Option, Bool};

    ghost Value = { List (List (Option Bool)) };

    ghost view = { λ o. o.rows.items };
}

// Whether a name is among these.
fn is_among(name: &Name, names: &[Shared<Name>]) -> bool
    ensures { result ≡ is_listed name.now names.now }
{
    names.iter().any(|other| **other == *name)
}

// Whether a name is that of a class.
fn is_named(p: &Program, class: ClassId, name: &Name) -> bool
    requires { class.0 < length p.now }
    ensures { result ≡ same name.now (name_at p.now class.0) }
{
    *name == *p.info(class).name()
}

// Whether a name is that of a direct superinterface of a class.
fn is_interface_of(p: &Program, class: ClassId, name: &Name) -> bool
    requires { class.0 < length p.now }
    ensures { result ≡ is_listed name.now (interfaces_in (outline_at p.now class.0)) }
{
    let info = p.info(class);
    let linked = info.linked();
    is_among(name, linked.interfaces.as_slice())
}

// Whether a name is that of a class or of one of its direct superinterfaces. It compares up to as
// many texts as there are interfaces.
fn is_own(p: &Program, class: ClassId, name: &Name) -> bool
    requires { class.0 < length p.now }
    ensures { result ≡ is_own p.now class.0 name.now }
{
    is_named(p, class, name) || is_interface_of(p, class, name)
}

impl Owned {
    /// Nothing was asked yet, which is right for each program.
    #[tactic(auto, using(crate::proofs::Owning::none_held))]
    pub fn new(alloc: Global) -> Owned
        ensures { (p : List Info) → AreOwned p result }
    {
        Owned {
            rows: Vec::new(alloc),
        }
    }

    // Holds it for the reference at an index of a class.
    #[tactic(auto, using(crate::proofs::Owning::held_more, crate::proofs::Owning::held_same))]
    fn hold(
        &mut self,
        p: &Program,
        class: ClassId,
        index: u32,
        reference: &MethodRef,
        own: bool,
    ) -> Result<(), Memory>
        requires owned { AreOwned p.now self.old }
        requires entry { IsEntry p.now class.0 index (Method reference.now) }
        requires right { own ≡ is_own p.now class.0 reference.now.class }
        ensures { AreOwned p.now self.new }
    {
        hold(&mut self.rows, class, index, own)?;
        Ok(())
    }

    // Compares the names, and holds what that tells.
    #[inline(never)]
    fn find(
        &mut self,
        p: &Program,
        class: ClassId,
        index: u32,
        reference: &MethodRef,
    ) -> Result<bool, Memory>
        requires owned { AreOwned p.now self.old }
        requires entry { IsEntry p.now class.0 index (Method reference.now) }
        requires class { class.0 < length p.now }
        ensures own { IfOk result (λ own. own ≡ is_own p.now class.0 reference.now.class) }
        ensures owned { AreOwned p.now self.new }
    {
        let own = is_own(p, class, &reference.class);
        self.hold(p, class, index, reference, own)?;
        Ok(own)
    }

    /// Whether the reference to a method at an index of a class's constant pool names the class
    /// itself or one of its direct superinterfaces. Where it was asked before it takes two indices
    /// and no text; the first time the name is compared with those of the class and its interfaces.
    #[inline(always)]
    #[tactic(auto, using(crate::proofs::Owning::held_own))]
    pub fn tell(
        &mut self,
        p: &Program,
        class: ClassId,
        index: u32,
        reference: &MethodRef,
    ) -> Result<bool, Memory>
        requires owned { AreOwned p.now self.old }
        requires entry { IsEntry p.now class.0 index (Method reference.now) }
        requires class { class.0 < length p.now }
        ensures own { IfOk result (λ own. own ≡ is_own p.now class.0 reference.now.class) }
        ensures owned { AreOwned p.now self.new }
    {
        if let Some(own) = held_at(&self.rows, class, index) {
            return Ok(own);
        }
        let own = self.find(p, class, index, reference)?;
        Ok(own)
    }
}
