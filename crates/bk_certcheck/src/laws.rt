//! Laws of the definitions, each the contract of a function that does nothing.

ghost use Rattle.bk_certcheck.specs.Laws.{OneVerdict};

/// Bytes have one verdict.
pub fn one_verdict()
    ensures { OneVerdict }
{}
