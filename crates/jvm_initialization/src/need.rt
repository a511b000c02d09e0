//! What stands before the use of a class (JVMS 5.5).

ghost use Rattle.std.specs.Prelude.{◌≡◌, ◌<◌, ◌++◌, ◌∷◌, [], ℕ, List, Some, true, false, map, length, slice_get, IfOk, IfSome, IfNone};
ghost use Rattle.machine_rules.specs.State as def;
ghost use Rattle.machine_rules.specs.Initialisation as rules;
ghost use Rattle.machine_rules.specs.Initialisation.{is_begun};
ghost use Rattle.class_link.specs.Info.{Info};
ghost use Rattle.class_table.specs.Faults.{HasRightKinds};
ghost use Rattle.class_table.specs.Table.{look, name_at};
ghost use Rattle.jvm_world.specs.View.{Means, IsWorldOf};
ghost use Rattle.jvm_initialization.specs.Needs.{node_at, is_interface_at, need_before, need_among, need_of, need_or, IsWithin, TellsNeed, IsToBegin, NeedsSame, GoesUp, NeedsAcross};

use crate::states::{counts, is_interface_at, state_of};
use class_family::{Walker, superclass};
use class_model::{ClassId, Memory};
use class_table::Program;
use jvm_world::{World, is_begun};
use machine_rules::InitState;

/// What stands before the use of a class.
#[derive(Clone, Copy)]
pub enum Need {
    /// Nothing.
    Ready,
    /// The begin of this class.
    Begins(ClassId),
    /// An initialisation that failed.
    Failing,
}

// What a class alone needs, by how far it has come.
fn need_by(state: InitState, class: ClassId) -> Need
    ensures need { (p : List Info) (rest : rules.Need) →
        rules.need_with state (node_at p class.0) rest ≡ need_or p result rest }
    ensures within { (p : List Info) → class.0 < length p → IsWithin p result }
{
    match state {
        InitState::Fresh => Need::Begins(class),
        InitState::Running => Need::Ready,
        InitState::Done => Need::Ready,
        InitState::Failed => Need::Failing,
    }
}

// Whether a need is none.
fn is_ready(need: Need) -> bool
    ensures ready { result ≡ true → (p : List Info) (rest : rules.Need) →
        need_or p need rest ≡ rest }
    ensures other { result ≡ false → (p : List Info) (rest : rules.Need) →
        need_or p need rest ≡ need_of p need }
{
    match need {
        Need::Ready => true,
        Need::Begins(_) => false,
        Need::Failing => false,
    }
}

// ---- upwards

// The superclass of a class that hasn't begun, if that hasn't, either.
fn next_up(world: &World, p: &Program, class: ClassId) -> Option<ClassId>
    requires world { IsWorldOf p.now world.now }
    requires kinds { HasRightKinds (look p.now) }
    requires class { IsToBegin p.now world.now class.0 }
    ensures some { IfSome result (λ up. GoesUp p.now world.now class.0 up.0) }
    ensures none { IfNone result (NeedsAcross p.now world.now class.0) }
{
    let _len = p.len();
    match superclass(p, class) {
        Some(up) => {
            let state = state_of(world, p, up);
            if is_begun(state) {
                return None;
            }
            Some(up)
        }
        None => None,
    }
}

// The highest class upwards from one that hasn't begun of which none has.
fn highest(world: &World, p: &Program, class: ClassId) -> ClassId
    requires world { IsWorldOf p.now world.now }
    requires kinds { HasRightKinds (look p.now) }
    requires class { IsToBegin p.now world.now class.0 }
    ensures fresh { IsToBegin p.now world.now result.0 }
    ensures same { NeedsSame p.now world.now class.0 result.0 }
    ensures across { NeedsAcross p.now world.now result.0 }
{
    let mut here = class;
    let mut next = next_up(world, p, here);
    while let Some(up) = next {
        here = up;
        next = next_up(world, p, up);
    }
    here
}

// ---- in order

// What one class needs, if it counts.
fn need_of_one(world: &World, p: &Program, class: ClassId) -> Need
    requires world { IsWorldOf p.now world.now }
    requires class { class.0 < length p.now }
    ensures need { (v : def.World) (rest : rules.Need) → Means p.now world.now v →
        need_before p.now class.0 v rest ≡ need_or p.now result rest }
    ensures within { IsWithin p.now result }
{
    if !counts(p, class) {
        return Need::Ready;
    }
    let state = state_of(world, p, class);
    let need = need_by(state, class);
    need
}

// The class at a place.
fn class_at(ids: &[u32], at: usize) -> ClassId
    requires { at < length ids.now }
    ensures { slice_get ids.now at ≡ Some result.0 }
{
    ClassId(ids[at])
}

// The first need of these classes, and then of another one.
fn first_need(world: &World, p: &Program, ids: &[u32], last: ClassId) -> Need
    requires world { IsWorldOf p.now world.now }
    requires ids { (k b : ℕ) → slice_get ids.now k ≡ Some b → b < length p.now }
    requires last { last.0 < length p.now }
    ensures need { (v : def.World) → Means p.now world.now v →
        need_among (look p.now) (map (name_at p.now) ids.now ++ name_at p.now last.0 ∷ []) v
        ≡ need_of p.now result }
    ensures within { IsWithin p.now result }
{
    let mut at = 0;
    while at < ids.len() {
        let id = class_at(ids, at);
        let need = need_of_one(world, p, id);
        if !is_ready(need) {
            return need;
        }
        at += 1;
    }
    need_of_one(world, p, last)
}

// What a class needs that is no interface and hasn't begun.
fn need_of_class(
    world: &World,
    p: &Program,
    walker: &mut Walker,
    class: ClassId,
) -> Result<Need, Memory>
    requires world { IsWorldOf p.now world.now }
    requires kinds { HasRightKinds (look p.now) }
    requires class { IsToBegin p.now world.now class.0 }
    ensures need { IfOk result (TellsNeed p.now world.now class.0) }
    ensures within { IfOk result (IsWithin p.now) }
{
    let here = highest(world, p, class);
    walker.across(p, here)?;
    let classes = walker.classes();
    let need = first_need(world, p, classes, here);
    Ok(need)
}

/// What stands before the use of a class: the begin of the first class that has to be initialised
/// before it and hasn't begun, or its own (JVMS 5.5, step 7). It looks at each class above it at
/// most twice.
pub fn need_for(
    world: &World,
    p: &Program,
    walker: &mut Walker,
    class: ClassId,
) -> Result<Need, Memory>
    requires world { IsWorldOf p.now world.now }
    requires kinds { HasRightKinds (look p.now) }
    requires class { class.0 < length p.now }
    ensures need { IfOk result (TellsNeed p.now world.now class.0) }
    ensures within { IfOk result (IsWithin p.now) }
{
    let _len = p.len();
    let state = state_of(world, p, class);
    if is_begun(state) {
        return Ok(Need::Ready);
    }
    if is_interface_at(p, class) {
        let need = need_by(state, class);
        return Ok(need);
    }
    let need = need_of_class(world, p, walker, class)?;
    Ok(need)
}
