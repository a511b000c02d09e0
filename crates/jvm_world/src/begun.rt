//! How far a class has come (JVMS 5.5).

ghost use Rattle.std.specs.Prelude.{◌≡◌};
ghost use Rattle.machine_rules.specs.Initialisation.{is_begun};

use machine_rules::InitState;

/// Whether a class is done, or its initializer runs.
#[inline(always)]
pub fn is_begun(state: InitState) -> bool
    ensures { result ≡ is_begun state }
{
    match state {
        InitState::Fresh => false,
        InitState::Running => true,
        InitState::Done => true,
        InitState::Failed => false,
    }
}
