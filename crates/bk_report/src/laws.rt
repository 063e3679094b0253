//! Laws of proofs, each the contract of a function that does nothing.

ghost use Rattle.bk_report.specs.ProofLaws.{MadeProofsAreGood};

/// A proof that is made of accounts is a good one of their state.
pub fn made_proofs_are_good()
    ensures { MadeProofsAreGood }
{}
