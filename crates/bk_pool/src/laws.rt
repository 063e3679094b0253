//! The law of receipts, as a function that does nothing: its clause is the law.

ghost use Rattle.bk_pool.specs.Laws.{ScenesShowReceipts};

/// The words of a place that is done hold the status and the amount of the receipt that the
/// transactions give it one at a time.
pub fn scenes_show_receipts()
    ensures { ScenesShowReceipts }
{}
