//! The names that a class mentions, each with a number.

ghost use Rattle.std.specs.Prelude.{◌≡◌, [], All, None, IfOk, OnOk, IfSome, IfNone};
ghost use Rattle.std.specs.BTreeMap.{get};
ghost use Rattle.std.specs.Cmp.Lexicographic.{slice_cmp};
ghost use Rattle.std.specs.Ordering.{nat_cmp};
ghost use Rattle.type_rules.specs.References.{dimensions, base_of, component_of};
ghost use Rattle.type_rules.specs.Rows.{is_of_references};
ghost use Rattle.vframes.specs.Named.{IsClosed, IsNamed, IsShaped};
ghost use Rattle.type_verifier.specs.Tables.{IsTable, Adds, NameLasts, ComponentLasts, EndsAt};

use class_link::names::without_last;
use class_model::{Memory, Name, Seq};
use class_table::Program;
use std::alloc::Global;
use std::collections::BTreeMap;
use vframes::{Base, Named, name_parts};

/// Names by number, and the number of each.
#[derive(Drop)]
pub struct Names {
    pub list: Vec<Named>,
    pub numbers: BTreeMap<Name, usize>,
}

// A program has all supers that it names.
#[tactic(auto, using(vframes::proofs::Closed::closed))]
fn is_closed(program: &Program)
    ensures { IsClosed program.now }
{
    let _count = program.len();
}

// Whether the elements of an array are references.
fn holds_references(named: &Named) -> bool
    requires { IsShaped named.now }
    ensures { result ≡ is_of_references (dimensions named.now.name) (base_of named.now.name) }
{
    match &named.base {
        Base::Class(_) => named.dimensions > 0,
        Base::Letter(_) => named.dimensions > 1,
    }
}

// The name of an array's component.
fn component(name: &[u16]) -> &[u16]
    ensures { result.now ≡ component_of name.now }
{
    match name {
        [] => name,
        [_] => &name[1..],
        [_, unit, rest @ ..] => {
            if *unit == b'[' as u16 {
                &name[1..]
            } else {
                without_last(rest)
            }
        }
    }
}

impl Names {
    /// A table with nothing but the empty name.
    pub fn new(alloc: Global, program: &Program) -> Result<Names, Memory>
        ensures { IfOk result (IsTable program.now) }
    {
        is_closed(program);
        let mut list = Vec::new(alloc);
        let mut numbers = BTreeMap::new(alloc);
        numbers.insert(Seq::new(alloc), 0)?;
        list.push(name_parts(alloc, program, &Seq::new(alloc))?)?;
        Ok(Names { list, numbers })
    }

    // The number of a name, if it has one.
    fn find(&self, program: &Program, name: &Name) -> Option<usize>
        requires { IsTable program.now self.now }
        ensures some { IfSome result (λ k. NameLasts self.now.list.items k name.now) }
        ensures none { IfNone result (get (slice_cmp nat_cmp) self.now.numbers name.now ≡ None) }
    {
        self.numbers.get(name).copied()
    }

    // One more name, which has no number.
    fn push(&mut self, program: &Program, named: Named) -> Result<usize, Memory>
        requires table { IsTable program.now self.old }
        requires named { IsNamed program.now named }
        requires fresh { get (slice_cmp nat_cmp) self.old.numbers named.name ≡ None }
        requires component { ComponentLasts self.old.list.items named.name named.component }
        ensures adds { OnOk result (Adds program.now self.old self.new) }
        ensures number { IfOk result (λ k. NameLasts self.new.list.items k named.name) }
    {
        let number = self.list.len();
        self.numbers.insert(named.name.copy()?, number)?;
        self.list.push(named)?;
        Ok(number)
    }

    // The number of a name, which is added unless it has one.
    fn add(&mut self, program: &Program, named: Named) -> Result<usize, Memory>
        requires table { IsTable program.now self.old }
        requires named { IsNamed program.now named }
        requires component { ComponentLasts self.old.list.items named.name named.component }
        ensures adds { OnOk result (Adds program.now self.old self.new) }
        ensures number { IfOk result (λ k. NameLasts self.new.list.items k named.name) }
    {
        match self.find(program, &named.name) {
            Some(number) => Ok(number),
            None => Ok(self.push(program, named)?),
        }
    }

    // The number of the first name, from this one on by components, that has one or that is no
    // array of references; those before it are left in the chain.
    fn end_of(
        &mut self,
        program: &Program,
        name: &Name,
        chain: &mut Vec<Named>,
    ) -> Result<usize, Memory>
        requires table { IsTable program.now self.old }
        requires empty { chain.old.items ≡ [] }
        ensures adds { OnOk result (Adds program.now self.old self.new) }
        ensures named { OnOk result (All (IsNamed program.now) chain.new.items) }
        ensures number { IfOk result (λ k. EndsAt self.new.list.items name.now chain.new.items k) }
    {
        let alloc = *self.list.allocator();
        let mut text = name.copy()?;
        loop {
            if let Some(number) = self.find(program, &text) {
                return Ok(number);
            }
            let named = name_parts(alloc, program, &text)?;
            if !holds_references(&named) {
                let number = self.push(program, named)?;
                return Ok(number);
            }
            text = Seq::from_slice(alloc, component(named.name.as_slice()))?;
            chain.push(named)?;
        }
    }

    /// The number of a name, which is added with its components unless it is there.
    pub fn number(&mut self, program: &Program, name: &Name) -> Result<usize, Memory>
        requires { IsTable program.now self.old }
        ensures adds { OnOk result (Adds program.now self.old self.new) }
        ensures number { IfOk result (λ k. NameLasts self.new.list.items k name.now) }
    {
        let alloc = *self.list.allocator();
        let mut chain = Vec::new(alloc);
        let mut number = self.end_of(program, name, &mut chain)?;
        while let Some(named) = chain.pop() {
            let mut named = named;
            named.component = number;
            number = self.add(program, named)?;
        }
        Ok(number)
    }
}
