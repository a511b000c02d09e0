//! Laws of the pass over a method's code, over the type rules alone: the frame that an instruction
//! begins with, the first rule that refuses there, and the first fault of the code.

ghost use Rattle.type_laws.specs.Steps.{FramesBegin, FramesGoOn, FallsOut, Unreached, IsNotTaken, RowsAreAsked, FaultsFollow, FaultsEnd};

/// The frame that an instruction begins with, and the one that falls into the next.
pub fn frames_follow()
    ensures begin { FramesBegin }
    ensures go_on { FramesGoOn }
{}

/// The first rule that refuses at an instruction.
pub fn rules_follow()
    ensures out { FallsOut }
    ensures unreached { Unreached }
    ensures not_taken { IsNotTaken }
    ensures asked { RowsAreAsked }
{}

/// The first fault from an instruction on.
pub fn faults_follow()
    ensures next { FaultsFollow }
    ensures end { FaultsEnd }
{}
