//! What a walk over a class and all above it has still to do: the last task is made first.

ghost use Rattle.std.specs.Prelude.{◌≡◌, [], ◌∷◌, ◌++◌, length, slice_get, OnOk, IfSome, IfNone};
ghost use Rattle.class_order.specs.Graph.{supers_of};
ghost use Rattle.class_family.specs.Walks.{PushesAt, PushesFrom, PushesSuperclass};
ghost use Rattle.class_family.specs.Walks.{PushesInterfaces, GoesUp};

use class_model::Memory;
use class_order::Links;

/// Where a walk goes.
#[derive(Clone, Copy)]
pub enum Way {
    Searching,
    Beginning,
}

/// What a walk has still to do with a class: to come to it, or to close it, once all above it was
/// found.
#[derive(Clone, Copy)]
pub enum Task {
    Enter(u32),
    Leave(u32),
}

/// Takes the task that is made next.
pub fn next(tasks: &mut Vec<Task>) -> Option<Task>
    ensures some { IfSome result (λ t. tasks.old.items ≡ tasks.new.items ++ t ∷ []) }
    ensures none { IfNone result (tasks.old.items ≡ []) }
    ensures end { IfNone result (tasks.new.items ≡ []) }
{
    tasks.pop()
}

/// The super of a class at a place, in the order of consulting.
pub fn super_at(links: &Links, at: usize) -> Option<u32>
    ensures { result ≡ slice_get (supers_of links.now) at }
{
    match links.parent {
        Some(parent) => {
            if at == 0 {
                Some(parent)
            } else {
                links.interfaces.get(at - 1).copied()
            }
        }
        None => links.interfaces.get(at).copied(),
    }
}

// How many supers a class names.
fn count(links: &Links) -> usize
    ensures { result ≡ length (supers_of links.now) }
{
    match links.parent {
        Some(_) => links.interfaces.len() + 1,
        None => links.interfaces.len(),
    }
}

fn push_at(tasks: &mut Vec<Task>, links: &Links, at: usize) -> Result<(), Memory>
    ensures { OnOk result (PushesAt links.now at tasks.old.items tasks.new.items) }
{
    if let Some(over) = super_at(links, at) {
        tasks.push(Task::Enter(over))?;
    }
    Ok(())
}

// The superclass is entered before all else, where the class names one: it is the first super.
fn push_superclass(tasks: &mut Vec<Task>, links: &Links, named: bool) -> Result<(), Memory>
    ensures { OnOk result (PushesSuperclass links.now named tasks.old.items tasks.new.items) }
{
    if named {
        push_at(tasks, links, 0)?;
    }
    Ok(())
}

// The supers from a place on are entered before all else, the first one first.
fn push_from(tasks: &mut Vec<Task>, links: &Links, from: usize) -> Result<(), Memory>
    ensures { OnOk result (PushesFrom links.now from tasks.old.items tasks.new.items) }
{
    let mut left = count(links);
    while left > from {
        left -= 1;
        push_at(tasks, links, left)?;
    }
    Ok(())
}

/// The interfaces are entered before all else, the first one first. Of these supers the first is
/// the superclass, where the class names one.
pub fn push_interfaces(tasks: &mut Vec<Task>, links: &Links, named: bool) -> Result<(), Memory>
    ensures { OnOk result (PushesInterfaces links.now named tasks.old.items tasks.new.items) }
{
    if named {
        push_from(tasks, links, 1)?;
    } else {
        push_from(tasks, links, 0)?;
    }
    Ok(())
}

/// The supers to which a walk goes on are entered before all else. Of these supers the first is the
/// superclass, where the class names one.
pub fn push_steps(
    tasks: &mut Vec<Task>,
    way: Way,
    links: &Links,
    named: bool,
    interface: bool,
) -> Result<(), Memory>
    ensures { OnOk result (GoesUp links.now way named interface tasks.old.items tasks.new.items) }
{
    match way {
        Way::Searching => {
            push_superclass(tasks, links, named)?;
            push_interfaces(tasks, links, named)?;
            Ok(())
        }
        Way::Beginning => {
            push_interfaces(tasks, links, named)?;
            push_superclass(tasks, links, named && !interface)?;
            Ok(())
        }
    }
}
