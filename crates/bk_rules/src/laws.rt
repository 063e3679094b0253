//! The laws of the rule and of the fold, as functions that do nothing: their clauses are the laws.

ghost use Rattle.bk_rules.specs.Laws.{KeepsTotal, KeepsLedger, KeepsIds, SeesDeclaredAlone, ChangesWritableAlone, IsRuleOfRows, FoldKeepsTotal, FoldKeepsLedger, FoldKeepsIds, RoomIsKept, RoomIsLeft, SeqsStayBelow, BalancesStayBelow, StateAppends, ReceiptsAppend, OneReceiptEach, ReceiptOfPlace, RowsOfPlace, RowsAreKnown};
ghost use Rattle.bk_rules.specs.Part.{PartGivesReceipts, PartGivesState};
ghost use Rattle.bk_rules.specs.Storing.{EffectIsOutcome};

/// A transaction makes and loses no money, whatever becomes of it, and neither do many.
pub fn total_is_kept()
    ensures one { KeepsTotal }
    ensures many { FoldKeepsTotal }
{}

/// A ledger is one after a transaction, in version One with the same ids.
pub fn ledger_is_kept()
    ensures ledger { KeepsLedger }
    ensures ids { KeepsIds }
{}

/// A ledger is one after many transactions, in version One with the same ids.
pub fn fold_keeps_ledger()
    ensures ledger { FoldKeepsLedger }
    ensures ids { FoldKeepsIds }
{}

/// The rule sees the declared accounts alone, and changes those alone that are declared for writing.
pub fn rule_is_local()
    ensures sees { SeesDeclaredAlone }
    ensures changes { ChangesWritableAlone }
{}

/// What the rule makes of the rows is, id by id, what it makes of the accounts.
pub fn rule_of_rows()
    ensures { IsRuleOfRows }
{}

/// The effect on a view of the declared accounts, put back, is the rule on the rows.
pub fn effect_is_outcome()
    ensures { EffectIsOutcome }
{}

/// Rows by ascending id with the same accounts are the same.
pub fn rows_are_known()
    ensures { RowsAreKnown }
{}

/// Room for a list and n more leaves room for n after the list. Opening accounts have room for fewer than 2^63: after
/// k transactions each sequence number is below 2^63 + k, and the balances add up to at most 2^63 - 1.
pub fn room_is_left()
    ensures kept { RoomIsKept }
    ensures left { RoomIsLeft }
    ensures seqs { SeqsStayBelow }
    ensures balances { BalancesStayBelow }
{}

/// The fold of a list and then another is the fold of both in a row.
pub fn fold_appends()
    ensures state { StateAppends }
    ensures receipts { ReceiptsAppend }
{}

/// There is a receipt for each transaction. It is that of the transaction on the rows before it, and the rows before
/// the next place are those after it.
pub fn fold_by_place()
    ensures count { OneReceiptEach }
    ensures receipt { ReceiptOfPlace }
    ensures rows { RowsOfPlace }
{}

/// Transactions give on a part that holds their accounts what they give on the whole: the same receipts, and, once the
/// part is put back, the same rows.
pub fn part_is_enough()
    ensures receipts { PartGivesReceipts }
    ensures state { PartGivesState }
{}
