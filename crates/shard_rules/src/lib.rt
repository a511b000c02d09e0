//! Shard files: of which shard one is, which records it has, and which files are a whole set.
//!
//! The definitions are in `specs/`. The laws say that reading and spelling undo each other, and that
//! each place of a list has one owner.
#![tactic(auto)]

ghost use Rattle.std.specs.Prelude.{◌≡◌};
ghost use Rattle.shard_rules.specs.Laws.{EachHasOneOwner, FaultsArePlaced, HeadsAreReadAsSpelled};
ghost use Rattle.shard_rules.specs.Laws.{OwnedGoByPlace, SetsAreWhole, ShardsAreReadAsSpelled};
ghost use Rattle.shard_rules.specs.Laws.{WholeSetsPass};
ghost use Rattle.shard_rules.specs.Worked.{places_cut, places_with, sets, told_cut, told_high};
ghost use Rattle.shard_rules.specs.Worked.{told_of_sets, told_zero};

mod head;
mod lack;
mod set_fault;

pub use head::{Head, HeadFault};
pub use lack::Lack;
pub use set_fault::SetFault;

/// A head is read exactly where it is spelled, whatever comes behind it.
pub fn heads_are_read_as_spelled()
    ensures { HeadsAreReadAsSpelled }
{}

/// The text of a shard's records that have the form of a history and differ is read as these, and
/// what is read was spelled so where its profile number is the reader's.
pub fn shards_are_read_as_spelled()
    ensures { ShardsAreReadAsSpelled }
{}

/// What is told of bytes that are no history is a place, up to the most bytes that one has.
pub fn faults_are_placed()
    ensures { FaultsArePlaced }
{}

/// Each place of a list is owned by exactly one of the shards.
pub fn each_has_one_owner()
    ensures { EachHasOneOwner }
{}

/// What a shard owns of a list is what stands at the places that it owns.
pub fn owned_go_by_place<X>()
    ensures { OwnedGoByPlace X }
{}

/// Heads without a fault are those of all shards, each once; and such heads have none, in any order.
pub fn whole_sets_have_no_fault()
    ensures whole { SetsAreWhole }
    ensures pass { WholeSetsPass }
{}

/// A head that is cut or damaged is told at the places that were worked out by hand, and so are sets
/// of heads.
pub fn heads_are_worked_out()
    ensures cut { places_cut 11 0 ≡ told_cut }
    ensures zero { places_with 0 10 0 ≡ told_zero }
    ensures high { places_with 255 10 0 ≡ told_high }
    ensures sets { sets ≡ told_of_sets }
{}
