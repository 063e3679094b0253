//! Laws of the apply report, each the contract of a function that does nothing.

ghost use Rattle.bk_apply.specs.Laws.{MoneyIsGenesis, OneReport};

/// Executing a feed makes and loses no money: the `money` line is the sum of the opening balances.
pub fn money_is_that_of_genesis()
    ensures { MoneyIsGenesis }
{}

/// A byte string has at most one apply report.
pub fn one_report()
    ensures { OneReport }
{}
