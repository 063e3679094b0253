//! Laws of the definitions, each the contract of a function that does nothing.

ghost use Rattle.bk_chain.specs.Chains.{OneFold};
ghost use Rattle.bk_chain.specs.Laws.{OneResult};

/// A text of links has exactly one of a fault, a good chain and a broken one.
pub fn one_result()
    ensures { OneResult }
{}

/// A chain of feeds is one fold: the receipts of all feeds, one list after the other, are those of all their
/// transactions in a row on the first opening accounts, the accounts at the end are those of that fold, and the money is
/// that of the first genesis.
pub fn one_fold()
    ensures { OneFold }
{}
