//! Laws of the definitions, each the contract of a function that does nothing.

ghost use Rattle.bk_tail.specs.Laws.{RowsStay};

/// The rows of a feed's table begin those of each larger feed with the same setup.
pub fn rows_stay()
    ensures { RowsStay }
{}
