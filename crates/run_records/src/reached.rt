//! The lines that a run reached, by the places of their classes among the consulted names.

ghost use Rattle.std.specs.Prelude.{◌≡◌, ◌<◌, ◌^◌, [], map, length, IfOk};
ghost use Rattle.std.specs.List.{fold};
ghost use Rattle.record_rules.specs.Records.{put_pair};
ghost use Rattle.run_records.specs.Places.{placed};

use crate::consulted::Consulted;
use class_model::{ClassId, Memory, Seq};
use std::alloc::Global;

// Each line behind the place of its class.
fn placed(
    alloc: Global,
    consulted: &Consulted,
    lines: &[(ClassId, u16)],
) -> Result<Vec<(u32, u16)>, Memory>
    requires { length consulted.now.entries.items < 2 ^ 32 }
    ensures { IfOk result (λ pairs. pairs.items ≡ map (placed consulted.now) lines.now) }
{
    let mut pairs = Vec::with_capacity(alloc, lines.len())?;
    for line in lines {
        let place = consulted.place_of(line.0);
        pairs.push((place, line.1))?;
    }
    Ok(pairs)
}

// Pairs in ascending order, each once.
fn in_order(mut pairs: Vec<(u32, u16)>) -> Seq<(u32, u16)>
    ensures { result ≡ fold put_pair [] pairs.items }
{
    pairs.sort_unstable();
    pairs.dedup();
    Seq::from_vec(pairs)
}

/// These lines, each behind the place of its class, in ascending order and each once.
pub fn reached(
    alloc: Global,
    consulted: &Consulted,
    lines: &[(ClassId, u16)],
) -> Result<Seq<(u32, u16)>, Memory>
    requires { length consulted.now.entries.items < 2 ^ 32 }
    ensures { IfOk result (λ pairs.
        pairs ≡ fold put_pair [] (map (placed consulted.now) lines.now)) }
{
    let pairs = placed(alloc, consulted, lines)?;
    Ok(in_order(pairs))
}
