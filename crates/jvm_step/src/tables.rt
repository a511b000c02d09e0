//! What is found once for a program and kept by number, from run to run.

ghost use Rattle.std.specs.Prelude.{IfOk};
ghost use Rattle.class_table.specs.Table.{look};
ghost use Rattle.jvm_world.specs.Classes.{AreMachineClasses};
ghost use Rattle.jvm_world.specs.Finding.{Finds};
ghost use Rattle.jvm_lines.specs.Below.{AreNatives};
ghost use Rattle.jvm_step.specs.Tables.{AreNamedOf, AreTablesOf, looked_up};

use class_family::Walker;
use class_model::Memory;
use class_table::Program;
use jvm_lines::{Codes, Layouts, Lookups, Natives, Owned, Slots};
use jvm_link::{References, Selections};
use jvm_world::MachineClasses;
use std::alloc::Global;

/// What the machine finds once for a program: the classes of which it makes objects by itself, what
/// native methods are asked with, what references resolve to and objects select, slots of fields,
/// layouts of classes, codes of methods. It depends on the program alone, so it is lent to one run
/// of the program after the other.
#[derive(Drop)]
pub struct Tables {
    pub classes: MachineClasses,
    pub natives: Natives,
    pub lookups: Lookups,
    pub slots: Slots,
    pub layouts: Layouts,
    pub codes: Codes,
    /// What walks over classes; it keeps nothing that tells of the program.
    pub walker: Walker,
}

// Tables in which nothing was asked yet.
fn tables_with(
    alloc: Global,
    p: &Program,
    classes: MachineClasses,
    natives: Natives,
) -> Result<Tables, Memory>
    requires classes { AreMachineClasses p.now classes }
    requires natives { AreNatives p.now natives }
    ensures { IfOk result (λ tables. AreTablesOf p.now tables) }
{
    let lookups = Lookups::new(alloc, p)?;
    let slots = Slots::new(alloc);
    let layouts = Layouts::new(alloc);
    let codes = Codes::new(alloc);
    let walker = Walker::new(alloc);
    Ok(Tables {
        classes,
        natives,
        lookups,
        slots,
        layouts,
        codes,
        walker,
    })
}

impl Tables {
    /// Those of a program, in which nothing was asked yet; none where it lacks a class of which the
    /// machine or a native method makes objects.
    #[tactic(auto, using(crate::proofs::Looked::lacks_own, crate::proofs::Looked::lacks_made, crate::proofs::Looked::lacks_none))]
    pub fn find(alloc: Global, p: &Program) -> Result<Option<Tables>, Memory>
        ensures { IfOk result (Finds (look p.now) looked_up (AreTablesOf p.now)) }
    {
        let Some(classes) = MachineClasses::find(alloc, p)? else {
            return Ok(None);
        };
        let Some(natives) = Natives::find(alloc, p)? else {
            return Ok(None);
        };
        let tables = tables_with(alloc, p, classes, natives)?;
        Ok(Some(tables))
    }

    /// Those of a program whose classes have the names of those before, by number; nothing was
    /// asked of it yet. So no class is looked up, and no name is copied.
    pub fn renew(&mut self, alloc: Global, p: &Program)
        requires { AreNamedOf p.now self.old }
        ensures { AreTablesOf p.now self.new }
    {
        let _ = p.len();
        let references = References::new(alloc);
        let selections = Selections::new(alloc);
        let own = Owned::new(alloc);
        let slots = Slots::new(alloc);
        let layouts = Layouts::new(alloc);
        let codes = Codes::new(alloc);
        self.lookups = Lookups {
            references,
            selections,
            own,
            text: Some(self.natives.known.text),
        };
        self.slots = slots;
        self.layouts = layouts;
        self.codes = codes;
    }
}
