//! The law of slices, as a function that does nothing: its clause is the law.

ghost use Rattle.bk_ledger.specs.Sliced.{SlicesLeaveFold};

/// However transactions are cut into slices, and whatever whole runs execute these, they leave the receipts and the
/// accounts of the transactions one at a time.
pub fn slices_leave_fold()
    ensures { SlicesLeaveFold }
{}
