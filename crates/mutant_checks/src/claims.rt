//! The machine over events.

ghost use Rattle.std.specs.Prelude.{◌≡◌, OnOk, OnErr, IfOk, length};
ghost use Rattle.claim_core.specs.Agreement.{ClaimsAgree};
ghost use Rattle.claim_core.specs.Claims.{IsInRange, after, reply_of};

use claim_core::{ClaimState, Event, Reply};
use class_model::Memory;

/// `ClaimState::step`.
pub fn step(state: &mut ClaimState, event: &Event) -> Result<Reply, Memory>
    requires { IsInRange state.old event.now }
    ensures state { OnOk result (state.new ≡ after event.now state.old) }
    ensures reply { IfOk result (λ reply. reply ≡ reply_of event.now state.old) }
    ensures err { OnErr result (state.new ≡ state.old) }
    ensures keeps { ClaimsAgree state.old → ClaimsAgree state.new }
    ensures mutants { length state.new.least ≡ length state.old.least }
    ensures workers { length state.new.lists ≡ length state.old.lists }
{
    let reply = state.step(event)?;
    Ok(reply)
}
