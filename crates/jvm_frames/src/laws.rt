// What `stay` is to whole runs.

ghost use Rattle.jvm_frames.specs.Running.{StepsOfRuns};

/// Steps of one frame alone, where its instructions are those of its method and the marks are
/// right, are so many steps of the run that `machine_rules` defines.
#[tactic(auto, using(crate::proofs::RunSteps::steps_of_runs))]
pub fn stays_are_steps()
    ensures { StepsOfRuns }
{}
