//! What holds of the program's outcomes, as the contract of a function that does nothing.
ghost use Rattle.pyver_tool.specs.Tasks.{ChecksOnce, OutcomesOnce};

/// Of what is asked for there is at most one outcome; `marker` may have many.
#[tactic(auto, using(crate::proofs::RunEnds::outcomes_once))]
pub fn outcomes_once()
    ensures { OutcomesOnce }
{}

/// Of files that were checked one thing is written, if no pair of markers is undecided.
#[tactic(auto, using(crate::proofs::RunEnds::checks_once))]
pub fn checks_once()
    ensures { ChecksOnce }
{}
