//! What a run has consulted, and the walk over all that stands above a class.

ghost use Rattle.std.specs.Prelude.{◌≡◌, ◌<◌, ◌↔◌, [], ◌∷◌, ◌++◌, length, true, slice_get, slice_set, Some, IfOk, OnOk, IsTrue};
ghost use Rattle.std.specs.List.{list_any};
ghost use Rattle.program_rules.specs.Names.{same};
ghost use Rattle.program_rules.specs.Linked.{is_library};
ghost use Rattle.program_rules.specs.Programs.{consult_one, consult_in, consulted_with};
ghost use Rattle.class_table.specs.Table.{look, name_at};
ghost use Rattle.class_table.specs.Seen.{AreKnownAbove, IsConsultedOf};
ghost use Rattle.class_table.specs.Walked.{wanted, AreTasks, Visits, Makes};

use crate::program::Program;
use crate::tasks::{Task, first_task, next, push_supers};
use class_model::{ClassId, Memory, Name, Seq};
use std::alloc::Global;
use std::marker::Model;

/// The names that a run has consulted, in order of first use.
#[derive(Drop)]
pub struct Consulted {
    names: Seq<Name>,
    // for each class of the program, whether it and all above it were consulted
    marks: Vec<bool>,
}

impl Model for Consulted {
    ghost use Rattle.class_table.specs.Seen.{Seen};

    ghost Value = { Seen };

    ghost view = { λ c. record { names = c.names; marks = c.marks.items } };
}

impl Consulted {
    /// Nothing of this program was consulted yet.
    pub fn new(alloc: Global, program: &Program) -> Result<Consulted, Memory>
        ensures names { IfOk result (λ c. c.names ≡ []) }
        ensures consulted { IfOk result (λ c. IsConsultedOf program.now c) }
    {
        Ok(Consulted {
            names: Seq::new(alloc),
            marks: vec![in alloc; false; program.len()]?,
        })
    }

    /// The names in order of first use.
    pub fn names(&self) -> &Seq<Name>
        ensures { result.now ≡ self.now.names }
    {
        &self.names
    }

    // Adds a name, unless it is known.
    fn note(&mut self, program: &Program, name: &Name) -> Result<(), Memory>
        requires { IsConsultedOf program.now self.old }
        ensures names { OnOk result
            (self.new.names ≡ consult_one (look program.now) name.now self.old.names) }
        ensures kept { OnOk result (IsConsultedOf program.now self.new) }
    {
        self.add(program, name)
    }

    fn add(&mut self, program: &Program, name: &Name) -> Result<(), Memory>
        ensures names { OnOk result
            (self.new.names ≡ consult_one (look program.now) name.now self.old.names) }
        ensures marks { OnOk result (self.new.marks ≡ self.old.marks) }
    {
        if program.is_library(name) || is_among(self.names.as_slice(), name) {
            return Ok(());
        }
        self.names.push(name.copy()?)?;
        Ok(())
    }

    fn is_marked(&self, id: ClassId) -> bool
        ensures { IsTrue result ↔ (slice_get self.now.marks id.0 ≡ Some true) }
    {
        self.marks.get(id.0 as usize) == Some(&true)
    }

    fn set_mark(&mut self, id: ClassId)
        requires { id.0 < length self.old.marks }
        ensures names { self.new.names ≡ self.old.names }
        ensures marks { self.new.marks ≡ slice_set self.old.marks id.0 true }
    {
        self.marks[id.0 as usize] = true;
    }

    // Marks a class that was consulted with all above it.
    fn mark(&mut self, program: &Program, id: ClassId)
        requires class { id.0 < length program.now }
        requires seen { IsConsultedOf program.now self.old }
        requires walked { AreKnownAbove program.now self.old.names (name_at program.now id.0) }
        ensures names { self.new.names ≡ self.old.names }
        ensures kept { IsConsultedOf program.now self.new }
    {
        let _len = program.len();
        self.set_mark(id);
    }
}

fn is_among(names: &[Name], name: &Name) -> bool
    ensures { result ≡ list_any (λ m. same m name.now) names.now }
{
    names.iter().any(|other| *other == *name)
}

impl Program {
    // Whether a name is that of a class of the library.
    #[tactic(auto, unfolding(class_link::specs::View::linked_of))]
    fn is_library(&self, name: &Name) -> bool
        ensures { result ≡ is_library (look self.now name.now) }
    {
        match self.find(name) {
            Some(id) => self.info(id).linked().library,
            None => false,
        }
    }

    // Comes to a class: consults it, and what it names as its supers is visited before it is marked.
    fn visit(&self, seen: &mut Consulted, tasks: &mut Vec<Task>, id: ClassId) -> Result<(), Memory>
        requires class { id.0 < length self.now }
        requires seen { IsConsultedOf self.now seen.old }
        ensures visits { OnOk result
            (Visits self.now id.0 seen.old tasks.old.items seen.new tasks.new.items) }
        ensures kept { OnOk result (IsConsultedOf self.now seen.new) }
    {
        if seen.is_marked(id) {
            return Ok(());
        }
        seen.note(self, self.info(id).name())?;
        tasks.push(Task::Close(id.0))?;
        push_supers(tasks, self.links(id))
    }

    // Makes a task.
    fn make(&self, seen: &mut Consulted, tasks: &mut Vec<Task>, task: Task) -> Result<(), Memory>
        requires seen { IsConsultedOf self.now seen.old }
        requires tasks { AreTasks self.now seen.old.names (tasks.old.items ++ task ∷ []) }
        ensures made { OnOk result
            (Makes self.now task seen.old tasks.old.items seen.new tasks.new.items) }
        ensures kept { OnOk result (IsConsultedOf self.now seen.new) }
    {
        let _len = self.len();
        match task {
            Task::Visit(class) => self.visit(seen, tasks, ClassId(class)),
            Task::Close(class) => {
                seen.mark(self, ClassId(class));
                Ok(())
            }
        }
    }

    // Does all that is still to be done.
    fn run(&self, seen: &mut Consulted, tasks: &mut Vec<Task>) -> Result<(), Memory>
        requires seen { IsConsultedOf self.now seen.old }
        requires tasks { AreTasks self.now seen.old.names tasks.old.items }
        ensures names { OnOk result
            (seen.new.names
            ≡ consult_in (look self.now) (wanted self.now tasks.old.items) seen.old.names) }
        ensures kept { OnOk result (IsConsultedOf self.now seen.new) }
    {
        while let Some(task) = next(tasks) {
            self.make(seen, tasks, task)?;
        }
        Ok(())
    }

    // Consults a class and all above it by a walk.
    #[inline(never)]
    fn walk(&self, seen: &mut Consulted, id: ClassId) -> Result<(), Memory>
        requires class { id.0 < length self.now }
        requires seen { IsConsultedOf self.now seen.old }
        ensures names { OnOk result
            (seen.new.names
            ≡ consulted_with (look self.now) (name_at self.now id.0) seen.old.names) }
        ensures kept { OnOk result (IsConsultedOf self.now seen.new) }
    {
        let mut tasks = first_task(*seen.marks.allocator(), Task::Visit(id.0))?;
        self.run(seen, &mut tasks)
    }

    /// Consults a class and all above it. One that was consulted before costs a look at its mark,
    /// and each class above it that wasn't is looked at once.
    #[inline(always)]
    pub fn consult(&self, seen: &mut Consulted, id: ClassId) -> Result<(), Memory>
        requires class { id.0 < length self.now }
        requires seen { IsConsultedOf self.now seen.old }
        ensures names { OnOk result
            (seen.new.names
            ≡ consulted_with (look self.now) (name_at self.now id.0) seen.old.names) }
        ensures kept { OnOk result (IsConsultedOf self.now seen.new) }
    {
        if seen.is_marked(id) {
            return Ok(());
        }
        self.walk(seen, id)
    }

    /// Consults the class of a name, also where there is none, as `consult` does.
    pub fn consult_name(&self, seen: &mut Consulted, name: &Name) -> Result<(), Memory>
        requires seen { IsConsultedOf self.now seen.old }
        ensures names { OnOk result
            (seen.new.names ≡ consulted_with (look self.now) name.now seen.old.names) }
        ensures kept { OnOk result (IsConsultedOf self.now seen.new) }
    {
        let _len = self.len();
        let Some(id) = self.find(name) else {
            return seen.note(self, name);
        };
        self.consult(seen, id)
    }
}
