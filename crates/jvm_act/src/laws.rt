//! What rows come to, said in one way, and what becomes of frames.

ghost use Rattle.jvm_act.specs.Laws.{RunsAreTurned, WholesAreTurned, TurnsAreTurned, InvokedAreTurned, FieldsAreTurned, WholesKeepFrames, CallsKeepFrames, BeginsKeepFrames, FieldsKeepFrames, ReturnsKeepFrames, ThrowsKeepFrames, FramesAreHandled};

/// A row by which the running frame stays.
#[tactic(auto, using(crate::proofs::Turns::runs_are_turned))]
pub fn runs_are_turned()
    ensures { RunsAreTurned }
{}

/// One that resolves what its instruction names.
#[tactic(auto, using(crate::proofs::Turns::wholes_are_turned))]
pub fn wholes_are_turned()
    ensures { WholesAreTurned }
{}

/// One that may change which frames there are.
#[tactic(auto, using(crate::proofs::Turns::turns_are_turned))]
pub fn turns_are_turned()
    ensures { TurnsAreTurned }
{}

/// One that calls a method, once nothing is left of it.
#[tactic(auto, using(crate::proofs::Turns::invoked_are_turned))]
pub fn invoked_are_turned()
    ensures { InvokedAreTurned }
{}

/// One that uses a field, or makes an object.
#[tactic(auto, using(crate::proofs::Turns::fields_are_turned))]
pub fn fields_are_turned()
    ensures { FieldsAreTurned }
{}

/// Frames are as the next step needs them behind a row by which the running frame stays.
#[tactic(auto, using(crate::proofs::Framed::wholes_keep_frames))]
pub fn wholes_keep_frames()
    ensures { WholesKeepFrames }
{}

/// So they are behind a call.
#[tactic(auto, using(crate::proofs::Framed::calls_keep_frames))]
pub fn calls_keep_frames()
    ensures { CallsKeepFrames }
{}

/// So they are behind the begin of a class.
#[tactic(auto, using(crate::proofs::Framed::begins_keep_frames))]
pub fn begins_keep_frames()
    ensures { BeginsKeepFrames }
{}

/// So they are behind an instruction that uses a field or makes an object.
#[tactic(auto, using(crate::proofs::Framed::fields_keep_frames))]
pub fn fields_keep_frames()
    ensures { FieldsKeepFrames }
{}

/// So they are behind a return.
#[tactic(auto, using(crate::proofs::Framed::returns_keep_frames))]
pub fn returns_keep_frames()
    ensures { ReturnsKeepFrames }
{}

/// So they are behind a step of an object that is thrown.
#[tactic(auto, using(crate::proofs::Framed::throws_keep_frames))]
pub fn throws_keep_frames()
    ensures { ThrowsKeepFrames }
{}

/// What `unwind` of `jvm_unwind` asks of the running frame.
#[tactic(auto, using(crate::proofs::Coded::frames_are_handled))]
pub fn frames_are_handled()
    ensures { FramesAreHandled }
{}
