//! A run of three cells by two workers, claim by claim, worked out by hand.

ghost use Rattle.worker_checks.specs.Events.{AreAnswered, IsWholeAtEnd};

/// Law: eight events from the start, with their answers, are a whole run of three cells.
pub fn eight_events_are_a_whole_run()
    ensures answers { AreAnswered }
    ensures whole { IsWholeAtEnd }
{}
