//! What the native methods of the library need.

ghost use Rattle.library_laws.specs.Facts.{InEachProgram};
ghost use Rattle.library_laws.specs.NativeFacts.{HostsNatives, HostsKeepers};

/// What native methods need, but those of classes that keep items.
#[tactic(auto, using(crate::proofs::Hosting::natives))]
pub fn natives_have_hosts()
    ensures { InEachProgram HostsNatives }
{}

/// What native methods of classes that keep items need.
#[tactic(auto, using(crate::proofs::Hosting::keepers))]
pub fn keepers_have_hosts()
    ensures { InEachProgram HostsKeepers }
{}
