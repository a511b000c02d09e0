//! What a walk over a class and all above it has still to do: the last task is made first.

ghost use Rattle.std.specs.Prelude.{◌≡◌, ◌<◌, [], ◌∷◌, ◌++◌, length, slice_get, Some, IfOk, OnOk, IfSome, IfNone};
ghost use Rattle.class_order.specs.Graph.{supers_of};
ghost use Rattle.class_table.specs.Walked.{visits_of};

use class_model::Memory;
use class_order::Links;
use std::alloc::Global;

/// What a walk has still to do with a class: to come to it, or to mark it, once all above it was
/// consulted.
#[derive(Clone, Copy)]
pub enum Task {
    Visit(u32),
    Close(u32),
}

/// One task is to be done.
pub fn first_task(alloc: Global, task: Task) -> Result<Vec<Task>, Memory>
    ensures { IfOk result (λ tasks. tasks.items ≡ task ∷ []) }
{
    let mut tasks = Vec::new(alloc);
    tasks.push(task)?;
    Ok(tasks)
}

/// Takes the task that is made next.
pub fn next(tasks: &mut Vec<Task>) -> Option<Task>
    ensures some { IfSome result (λ t. tasks.old.items ≡ tasks.new.items ++ t ∷ []) }
    ensures none { IfNone result (tasks.old.items ≡ []) }
    ensures end { IfNone result (tasks.new.items ≡ []) }
{
    tasks.pop()
}

fn class_at(classes: &[u32], at: usize) -> u32
    requires { at < length classes.now }
    ensures { slice_get classes.now at ≡ Some result }
{
    classes[at]
}

// Visits of these classes come before all else, that of the first one first.
fn push_visits(tasks: &mut Vec<Task>, classes: &[u32]) -> Result<(), Memory>
    ensures { OnOk result (tasks.new.items ≡ tasks.old.items ++ visits_of classes.now) }
{
    let mut left = classes.len();
    while left > 0 {
        left -= 1;
        let class = class_at(classes, left);
        tasks.push(Task::Visit(class))?;
    }
    Ok(())
}

/// Visits of the supers of a class come before all else.
pub fn push_supers(tasks: &mut Vec<Task>, links: &Links) -> Result<(), Memory>
    ensures { OnOk result (tasks.new.items ≡ tasks.old.items ++ visits_of (supers_of links.now)) }
{
    push_visits(tasks, &links.interfaces)?;
    if let Some(parent) = links.parent {
        tasks.push(Task::Visit(parent))?;
    }
    Ok(())
}
