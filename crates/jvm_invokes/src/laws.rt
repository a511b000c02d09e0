//! What is left of a call, once its method is one with code.

ghost use Rattle.jvm_invokes.specs.Laws.{CalleesAreCalled, StaticsAreCalled};

/// The call of a method with code puts its frame on the others.
#[tactic(auto, using(crate::proofs::Lawful::callees_are_called))]
pub fn callees_are_called()
    ensures { CalleesAreCalled }
{}

/// What is left of `invokestatic` of a method with code, once its class is ready, is the row of
/// `call` of `jvm_calls`.
#[tactic(auto, using(crate::proofs::Lawful::statics_are_called))]
pub fn statics_are_called()
    ensures { StaticsAreCalled }
{}
