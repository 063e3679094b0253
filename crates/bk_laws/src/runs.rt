//! Laws of the report of a run, each the contract of a function that does nothing.

ghost use Rattle.bk_laws.specs.RunLaws.{MoneyLineIsGenesis, OneAnswer, RunKeepsMoney};

/// A run makes and loses no money: its accounts hold the money of the genesis at the end, and the one `money` line of
/// its report says so.
pub fn run_keeps_money()
    ensures kept { RunKeepsMoney }
    ensures line { MoneyLineIsGenesis }
{}

/// A byte string comes to one thing at most: it has a fault, is stopped, or has a report with its status.
pub fn one_answer()
    ensures { OneAnswer }
{}
