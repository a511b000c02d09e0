//! Eight events of two workers are replayed.

use claim_core::{ClaimState, Event, Reply};
use std::test::Fail;

// The number of a cell, or a place, that is answered.
fn number(reply: Reply) -> Option<u64> {
    match reply {
        Reply::Cell(number) => number,
        Reply::Place(place) => place,
        Reply::Done => None,
    }
}

#[test]
fn eight_events_are_replayed(rt: HostRuntime) -> Result<(), Fail> {
    let mut state = ClaimState::new(rt.alloc(), 2, 3, 2)?;
    let first = state.step(&Event::Claim { worker: 0 })?;
    assert_eq!(rt; number(first), Some(0));
    let second = state.step(&Event::Claim { worker: 1 })?;
    assert_eq!(rt; number(second), Some(1));
    let early = state.step(&Event::Look {
        worker: 0,
        mutant: 0,
    })?;
    assert_eq!(rt; number(early), None);
    let _done = state.step(&Event::Detect {
        worker: 1,
        mutant: 0,
        place: 1,
    })?;
    let late = state.step(&Event::Look {
        worker: 0,
        mutant: 0,
    })?;
    assert_eq!(rt; number(late), Some(1));
    let third = state.step(&Event::Claim { worker: 0 })?;
    assert_eq!(rt; number(third), Some(2));
    let past = state.step(&Event::Claim { worker: 0 })?;
    assert_eq!(rt; number(past), None);
    let other = state.step(&Event::Claim { worker: 1 })?;
    assert_eq!(rt; number(other), None);

    // The second test detects the first mutant, and none the second.
    assert_eq!(rt; state.least(0), Some(1));
    assert_eq!(rt; state.least(1), None);
    Ok(())
}
