ghost use Rattle.std.specs.Prelude.{◌≡◌, length};

use claim_core::{ClaimState, Event, Reply};
use std::test::Fail;

// The six mutants of a method that asks whether a number is below zero, in the order of their
// identifiers. Its tests call it with -1 (place 0) and with 0 (place 1), and the bits of each
// number are the places that detect a mutant.
const BELOW_ZERO: [u64; 6] = [0b10, 0b11, 0b01, 0b00, 0b00, 0b10];

// The least of these places, worked out by hand.
const LEAST: [Option<u64>; 6] = [Some(1), Some(0), Some(0), None, None, Some(1)];

#[test]
fn below_zero_is_replayed(rt: HostRuntime) -> Result<(), Fail> {
    let mut state = ClaimState::new(rt.alloc(), 6, 12, 2)?;
    let mut skipped = 0u64;
    for turn in 0..16u64 {
        let worker = turn % 2;
        let Reply::Cell(Some(cell)) = state.step(&Event::Claim { worker })? else {
            assert!(rt; turn >= 12, "turn {turn}");
            continue;
        };
        assert_eq!(rt; cell, turn);
        let mutant = cell / 2 % 6;
        let place = cell % 2;
        let Reply::Place(least) = state.step(&Event::Look { worker, mutant })? else {
            continue;
        };
        if least.is_some_and(|least| least < place) {
            skipped = skipped.saturating_add(1);
        } else if (BELOW_ZERO[mutant as usize] >> place) & 1 == 1 {
            state.step(&Event::Detect {
                worker,
                mutant,
                place,
            })?;
        }
    }
    // The second test of the second and of the third mutant.
    assert_eq!(rt; skipped, 2);
    for mutant in 0..6 {
        assert_eq!(rt;
            state.least(mutant),
            LEAST[mutant as usize],
            "mutant {mutant}"
        );
    }
    Ok(())
}
