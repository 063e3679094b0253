//! What follows from how a job ended, each the contract of a function that does nothing.

ghost use Rattle.bk_jobs.specs.Laws.{AnswersAreOut, AnswersFailNoDevice, ExitsOfJobs, RefusalsBlameBytes, RefusalsWriteNothing};

/// A job ends only with an exit that it can have: with `--strict` also with that of a flaw.
pub fn exits_of_jobs()
    ensures { ExitsOfJobs }
{}

/// Where the exit of a job is that of an answer, the whole answer is on the output.
pub fn answers_are_out()
    ensures { AnswersAreOut }
{}

/// No call of a device failed of a job that has an answer.
pub fn answers_fail_no_device()
    ensures { AnswersFailNoDevice }
{}

/// Where the exit says that the bytes are to blame, they are; and nothing is written but by a job that writes while it
/// reads.
pub fn refusals_blame_bytes()
    ensures blame { RefusalsBlameBytes }
    ensures unwritten { RefusalsWriteNothing }
{}
