//! Laws of the definitions, each the contract of a function that does nothing.

ghost use Rattle.bk_summary.specs.Laws.{DigestsAreOfPayloads};

/// The digests that a summary begins with are those of the first two frames, as `frames` shows them.
pub fn digests_are_of_payloads()
    ensures { DigestsAreOfPayloads }
{}
