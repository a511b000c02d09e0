//! Walks over a class and all above it.

ghost use Rattle.std.specs.Prelude.{◌≡◌, ◌<◌, [], ◌∷◌, ◌++◌, length, slice_get, Some, OnOk};
ghost use Rattle.program_rules.specs.Programs.{Searching, Beginning};
ghost use Rattle.jvm_marks.specs.Marks.{is_among, with_number};
ghost use Rattle.class_family.specs.declared.tasks.Task.TheVariants.{Leave};
ghost use Rattle.class_family.specs.Above.{AreWithin, AreAbove};
ghost use Rattle.class_family.specs.Families.{AreClassesOf, AreAcross};
ghost use Rattle.class_family.specs.Walks.{order_of, IsSeen, CanMake, CanMakeAll, Enters, Leaves};
ghost use Rattle.class_family.specs.Walks.{EntersAbove, Makes};
ghost use Rattle.class_family.specs.Walks.{FindsBefore, FindsBehind, FindsWanted};

use crate::seen::Seen;
use crate::steps::{enter_interfaces, enter_steps};
use crate::tasks::{Task, Way, next};
use class_model::{ClassId, Memory};
use class_table::Program;
use jvm_marks::Marks;
use std::alloc::Global;
use std::marker::Model;

/// What finds the classes that a search goes over. It is lent from one search to the next, and
/// keeps its marks, which are cleared through the classes that were found.
#[derive(Drop)]
pub struct Walker {
    seen: Seen,
    tasks: Vec<Task>,
}

impl Model for Walker {
    ghost use Rattle.std.specs.Prelude.{List, ℕ};

    ghost Value = { List ℕ };

    ghost view = { λ w. w.seen.found };
}

// ---- steps of a walk

// Finds a class, unless it was found.
fn find(seen: &mut Seen, id: ClassId) -> Result<(), Memory>
    ensures found { OnOk result (seen.new.found ≡ with_number id.0 seen.old.found) }
    ensures closed { OnOk result (seen.new.closed ≡ seen.old.closed) }
{
    seen.found.note(id.0)?;
    Ok(())
}

// Closes a class.
fn close(seen: &mut Seen, id: ClassId) -> Result<(), Memory>
    ensures found { OnOk result (seen.new.found ≡ seen.old.found) }
    ensures closed { OnOk result (seen.new.closed ≡ with_number id.0 seen.old.closed) }
{
    seen.closed.note(id.0)?;
    Ok(())
}

// Finds a class where the walk comes to it before all above it.
fn find_before(program: &Program, way: Way, seen: &mut Seen, id: ClassId) -> Result<(), Memory>
    requires class { id.0 < length program.now }
    requires seen { IsSeen (order_of way) program.now seen.old }
    ensures { OnOk result (FindsBefore way program.now id.0 seen.old seen.new) }
{
    let _len = program.len();
    match way {
        Way::Searching => {
            find(seen, id)?;
            Ok(())
        }
        Way::Beginning => Ok(()),
    }
}

// Finds a class where the walk comes to it behind all above it.
fn find_behind(program: &Program, way: Way, seen: &mut Seen, id: ClassId) -> Result<(), Memory>
    requires class { id.0 < length program.now }
    requires seen { IsSeen (order_of way) program.now seen.old }
    ensures { OnOk result (FindsBehind way program.now id.0 seen.old seen.new) }
{
    let _len = program.len();
    match way {
        Way::Searching => Ok(()),
        Way::Beginning => {
            find(seen, id)?;
            Ok(())
        }
    }
}

// Comes to a class. What it names as its supers is entered before the class is left.
fn enter(
    program: &Program,
    way: Way,
    seen: &mut Seen,
    tasks: &mut Vec<Task>,
    id: ClassId,
) -> Result<(), Memory>
    requires class { id.0 < length program.now }
    requires seen { IsSeen (order_of way) program.now seen.old }
    ensures enters { OnOk result (Enters (order_of way) program.now id.0
        seen.old tasks.old.items seen.new tasks.new.items) }
    ensures kept { OnOk result (IsSeen (order_of way) program.now seen.new) }
{
    if seen.closed.has(id.0) {
        return Ok(());
    }
    find_before(program, way, seen, id)?;
    tasks.push(Task::Leave(id.0))?;
    enter_steps(program, way, tasks, id)?;
    Ok(())
}

// Leaves a class, all above which was found.
fn leave(program: &Program, way: Way, seen: &mut Seen, id: ClassId) -> Result<(), Memory>
    requires class { id.0 < length program.now }
    requires seen { IsSeen (order_of way) program.now seen.old }
    requires walked { CanMake way program.now seen.old (Leave id.0) }
    ensures leaves { OnOk result (Leaves (order_of way) program.now id.0 seen.old seen.new) }
    ensures kept { OnOk result (IsSeen (order_of way) program.now seen.new) }
{
    find_behind(program, way, seen, id)?;
    close(seen, id)?;
    Ok(())
}

// Makes a task.
fn make(
    program: &Program,
    way: Way,
    seen: &mut Seen,
    tasks: &mut Vec<Task>,
    task: Task,
) -> Result<(), Memory>
    requires seen { IsSeen (order_of way) program.now seen.old }
    requires tasks { CanMakeAll way program.now seen.old (tasks.old.items ++ task ∷ []) }
    ensures made { OnOk result (Makes (order_of way) program.now task
        seen.old tasks.old.items seen.new tasks.new.items) }
    ensures kept { OnOk result (IsSeen (order_of way) program.now seen.new) }
{
    let _len = program.len();
    match task {
        Task::Enter(class) => {
            enter(program, way, seen, tasks, ClassId(class))?;
            Ok(())
        }
        Task::Leave(class) => {
            leave(program, way, seen, ClassId(class))?;
            Ok(())
        }
    }
}

// Does all that is still to be done.
fn run(program: &Program, way: Way, seen: &mut Seen, tasks: &mut Vec<Task>) -> Result<(), Memory>
    requires seen { IsSeen (order_of way) program.now seen.old }
    requires tasks { CanMakeAll way program.now seen.old tasks.old.items }
    ensures names { OnOk result (FindsWanted way program.now tasks.old.items seen.old seen.new) }
    ensures kept { OnOk result (IsSeen (order_of way) program.now seen.new) }
{
    while let Some(task) = next(tasks) {
        make(program, way, seen, tasks, task)?;
    }
    Ok(())
}

// Finds the classes of a walk, where nothing was found yet.
fn find_all(
    program: &Program,
    way: Way,
    seen: &mut Seen,
    tasks: &mut Vec<Task>,
    id: ClassId,
) -> Result<(), Memory>
    requires class { id.0 < length program.now }
    requires found { seen.old.found ≡ [] }
    requires closed { seen.old.closed ≡ [] }
    requires tasks { tasks.old.items ≡ [] }
    ensures { OnOk result (AreClassesOf (order_of way) program.now id.0 seen.new.found) }
{
    tasks.push(Task::Enter(id.0))?;
    run(program, way, seen, tasks)?;
    Ok(())
}

/// The number of a class, by its place among these.
pub fn class_at(classes: &[u32], at: usize) -> u32
    requires { at < length classes.now }
    ensures { slice_get classes.now at ≡ Some result }
{
    classes[at]
}

// The supers of these classes are entered.
fn enter_above(program: &Program, tasks: &mut Vec<Task>, classes: &[u32]) -> Result<(), Memory>
    requires within { AreWithin program.now classes.now }
    requires tasks { tasks.old.items ≡ [] }
    ensures { OnOk result (EntersAbove program.now classes.now tasks.new.items) }
{
    let _len = program.len();
    let mut at = 0;
    while at < classes.len() {
        let number = class_at(classes, at);
        enter_steps(program, Way::Searching, tasks, ClassId(number))?;
        at += 1;
    }
    Ok(())
}

// Finds all above any of these classes, where nothing was found yet.
fn find_above(
    program: &Program,
    seen: &mut Seen,
    tasks: &mut Vec<Task>,
    classes: &[u32],
) -> Result<(), Memory>
    requires within { AreWithin program.now classes.now }
    requires found { seen.old.found ≡ [] }
    requires closed { seen.old.closed ≡ [] }
    requires tasks { tasks.old.items ≡ [] }
    ensures { OnOk result (AreAbove program.now classes.now seen.new.found) }
{
    let _len = program.len();
    enter_above(program, tasks, classes)?;
    run(program, Way::Searching, seen, tasks)?;
    Ok(())
}

// Finds what is initialised before a class but for its superclass, where nothing was found yet.
fn find_across(
    program: &Program,
    seen: &mut Seen,
    tasks: &mut Vec<Task>,
    id: ClassId,
) -> Result<(), Memory>
    requires class { id.0 < length program.now }
    requires found { seen.old.found ≡ [] }
    requires closed { seen.old.closed ≡ [] }
    requires tasks { tasks.old.items ≡ [] }
    ensures { OnOk result (AreAcross program.now id.0 seen.new.found) }
{
    enter_interfaces(program, tasks, id)?;
    run(program, Way::Beginning, seen, tasks)?;
    Ok(())
}

impl Walker {
    /// Nothing was found yet.
    pub fn new(alloc: Global) -> Walker
        ensures { result ≡ [] }
    {
        Walker {
            seen: Seen {
                found: Marks::new(alloc),
                closed: Marks::new(alloc),
            },
            tasks: Vec::new(alloc),
        }
    }

    /// The numbers of the classes that were found, in order.
    pub fn classes(&self) -> &[u32]
        ensures { result.now ≡ self.now }
    {
        self.seen.found.numbers()
    }

    /// Whether a class was found.
    pub fn has(&self, id: ClassId) -> bool
        ensures { result ≡ is_among id.0 self.now }
    {
        self.seen.found.has(id.0)
    }

    fn walk(&mut self, program: &Program, way: Way, id: ClassId) -> Result<(), Memory>
        requires { id.0 < length program.now }
        ensures { OnOk result (AreClassesOf (order_of way) program.now id.0 self.new) }
    {
        self.seen.found.clear();
        self.seen.closed.clear();
        self.tasks.clear();
        find_all(program, way, &mut self.seen, &mut self.tasks, id)?;
        Ok(())
    }

    /// Finds the class and all above it: the class, its interfaces and all above them, its
    /// superclass and all above that (JVMS 5.4.3.2), each class once, where it is first met. It
    /// looks at each class and at each super that one names once.
    pub fn searching(&mut self, program: &Program, id: ClassId) -> Result<(), Memory>
        requires { id.0 < length program.now }
        ensures { OnOk result (AreClassesOf Searching program.now id.0 self.new) }
    {
        self.walk(program, Way::Searching, id)?;
        Ok(())
    }

    /// Finds what is initialised before a class, and then the class: its superclass behind what
    /// comes before that, unless it is an interface, and its interfaces, each behind its own (JVMS
    /// 5.5, step 7); each class once, where it is first met.
    pub fn beginning(&mut self, program: &Program, id: ClassId) -> Result<(), Memory>
        requires { id.0 < length program.now }
        ensures { OnOk result (AreClassesOf Beginning program.now id.0 self.new) }
    {
        self.walk(program, Way::Beginning, id)?;
        Ok(())
    }

    /// Finds what is initialised before a class but for its superclass and what comes before that:
    /// its interfaces, each behind its own (JVMS 5.5, step 7); each class once, where it is first
    /// met.
    pub fn across(&mut self, program: &Program, id: ClassId) -> Result<(), Memory>
        requires { id.0 < length program.now }
        ensures { OnOk result (AreAcross program.now id.0 self.new) }
    {
        self.seen.found.clear();
        self.seen.closed.clear();
        self.tasks.clear();
        find_across(program, &mut self.seen, &mut self.tasks, id)?;
        Ok(())
    }

    /// Finds all that stands above any of these classes, each class once, in one walk for all: it
    /// looks at each class and at each super that one names once, however many classes these are.
    /// Where one of them stands above another one, it is found, too.
    pub fn find_all_above(&mut self, program: &Program, classes: &[u32]) -> Result<(), Memory>
        requires { AreWithin program.now classes.now }
        ensures { OnOk result (AreAbove program.now classes.now self.new) }
    {
        self.seen.found.clear();
        self.seen.closed.clear();
        self.tasks.clear();
        find_above(program, &mut self.seen, &mut self.tasks, classes)?;
        Ok(())
    }

    /// Finds this class alone.
    pub fn alone(&mut self, id: ClassId) -> Result<(), Memory>
        ensures { OnOk result (self.new ≡ id.0 ∷ []) }
    {
        self.seen.found.clear();
        self.seen.found.note(id.0)?;
        Ok(())
    }
}
