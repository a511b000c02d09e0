//! The layouts of classes, made once for each.

ghost use Rattle.std.specs.Prelude.{◌≡◌, ◌<◌, ℕ, List, None, Some, length, IfOk, IfSome, OnOk, OnErr, if◌then◌else◌, nat_eq};
ghost use Rattle.std.proofs.Common.{get_or};
ghost use Rattle.class_link.specs.Info.{Info};
ghost use Rattle.jvm_members.specs.Layouts.{AreLayouts, IsLaidOut, layout_at};

use class_model::{ClassId, Memory, Seq};
use class_table::Program;
use jvm_layout::{Layout, layout_of};
use program_rules::Value;
use std::alloc::Global;
use std::marker::Model;

/// The layouts of a program's classes, as far as they were asked. What is kept depends on the
/// program alone, not on the run.
#[derive(Drop)]
pub struct Layouts {
    rows: Vec<Option<Layout>>,
}

impl Model for Layouts {
    ghost use Rattle.std.specs.Prelude.{List, Option};
    ghost use Rattle.jvm_layout.specs.declared.layout.Layout.{Layout as Held};

    ghost Value = { List (Option Held) };

    ghost view = { λ l. l.rows.items };
}

// The same values in a list of their own.
fn copy_values(alloc: Global, values: &[Value]) -> Result<Seq<Value>, Memory>
    ensures { IfOk result (λ copy. copy ≡ values.now) }
{
    let mut copy = Seq::with_capacity(alloc, values.len())?;
    copy.extend_from_slice(values)?;
    Ok(copy)
}

// An equal layout.
fn copy_layout(alloc: Global, layout: &Layout) -> Result<Layout, Memory>
    ensures { IfOk result (λ copy. copy ≡ layout.now) }
{
    let values = copy_values(alloc, layout.values.as_slice())?;
    Ok(Layout {
        is_abstract: layout.is_abstract,
        values,
        more: layout.more,
    })
}

// Makes sure that there is a place for a class.
fn make_place(rows: &mut Vec<Option<Layout>>, at: usize) -> Result<(), Memory>
    ensures same { (i : ℕ) → get_or rows.new.items i None ≡ get_or rows.old.items i None }
    ensures place { OnOk result (at < length rows.new.items) }
{
    while rows.len() <= at {
        rows.push(None)?;
    }
    Ok(())
}

// Keeps a layout where there is place for it.
fn put(rows: &mut [Option<Layout>], at: usize, layout: Layout)
    requires { at < length rows.old }
    ensures { (i : ℕ) → get_or rows.new i None
        ≡ (if nat_eq at i then Some layout else get_or rows.old i None) }
{
    rows[at] = Some(layout);
}

// Keeps a layout at a place. Where memory runs out all is kept that was.
fn store(rows: &mut Vec<Option<Layout>>, at: usize, layout: Layout) -> Result<(), Memory>
    ensures kept { OnOk result ((i : ℕ) → get_or rows.new.items i None
        ≡ (if nat_eq at i then Some layout else get_or rows.old.items i None)) }
    ensures err { OnErr result ((i : ℕ) →
        get_or rows.new.items i None ≡ get_or rows.old.items i None) }
{
    make_place(rows, at)?;
    put(rows, at, layout);
    Ok(())
}

// A copy of what is kept for a class, if anything is.
fn copy_at(alloc: Global, rows: &[Option<Layout>], at: usize) -> Result<Option<Layout>, Memory>
    ensures { IfOk result (λ o. o ≡ layout_at at rows.now) }
{
    let Some(row) = rows.get(at) else {
        return Ok(None);
    };
    match row {
        Some(layout) => {
            let copy = copy_layout(alloc, layout)?;
            Ok(Some(copy))
        }
        None => Ok(None),
    }
}

// A new layout of a class.
fn make_layout(alloc: Global, p: &Program, class: ClassId) -> Result<Layout, Memory>
    requires { class.0 < length p.now }
    ensures { IfOk result (IsLaidOut p.now class.0) }
{
    let layout = layout_of(alloc, p, class)?;
    Ok(layout)
}

impl Layouts {
    /// Nothing was asked yet, which is right for each program.
    #[tactic(auto, using(crate::proofs::Laid::none_laid))]
    pub fn new(alloc: Global) -> Layouts
        ensures { (p : List Info) → AreLayouts p result }
    {
        Layouts {
            rows: Vec::new(alloc),
        }
    }

    // A copy of what is kept for a class, if anything is.
    #[tactic(auto, using(crate::proofs::Laid::laid_there))]
    fn copied(&self, alloc: Global, p: &Program, class: ClassId) -> Result<Option<Layout>, Memory>
        requires { AreLayouts p.now self.now }
        ensures { IfOk result (λ o. IfSome o (IsLaidOut p.now class.0)) }
    {
        let copy = copy_at(alloc, &self.rows, class.0 as usize)?;
        Ok(copy)
    }

    // Keeps the layout of a class.
    #[tactic(auto, using(crate::proofs::Laid::laid_more, crate::proofs::Laid::laid_same))]
    fn keep(&mut self, p: &Program, class: ClassId, layout: Layout) -> Result<(), Memory>
        requires layouts { AreLayouts p.now self.old }
        requires right { IsLaidOut p.now class.0 layout }
        ensures { AreLayouts p.now self.new }
    {
        store(&mut self.rows, class.0 as usize, layout)?;
        Ok(())
    }

    /// The layout of a class, whose values are a list of their own. Where it was asked before it
    /// takes the memory of that list, which is the new object's.
    pub fn layout(&mut self, alloc: Global, p: &Program, class: ClassId) -> Result<Layout, Memory>
        requires layouts { AreLayouts p.now self.old }
        requires class { class.0 < length p.now }
        ensures layout { IfOk result (IsLaidOut p.now class.0) }
        ensures layouts { AreLayouts p.now self.new }
    {
        let kept = self.copied(alloc, p, class)?;
        if let Some(layout) = kept {
            return Ok(layout);
        }
        let layout = make_layout(alloc, p, class)?;
        let copy = copy_layout(alloc, &layout)?;
        self.keep(p, class, layout)?;
        Ok(copy)
    }
}
