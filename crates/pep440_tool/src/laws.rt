//! What holds of the program's answers, as the contract of a function that does nothing.
ghost use Rattle.pep440_tool.specs.Commands.{AnswerIsUnique};

/// To what is asked, with an input, there is at most one answer.
pub fn answered_once()
    ensures { AnswerIsUnique }
{}
