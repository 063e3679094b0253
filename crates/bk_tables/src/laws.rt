//! Laws of the definitions, each the contract of a function that does nothing.

ghost use Rattle.bk_tables.specs.Counted.{CountsOnce, RowsCountOnce, RowsNamedByPlace, RowsNamedOnce};
ghost use Rattle.bk_tables.specs.Laws.{ListPicksPostings, ListPicksRows, OutIsAllIn, PaidAddsUp, PayloadsHoldTransactions, PlacesAreRows, PostingsAreEntries, RowsAreBatchLines, RowsAreTxLines, RowsHaveStatus};
ghost use Rattle.bk_tables.specs.TextLaws.{BatchesReadBack, OneBatchTable, OnePaymentTable, OnePostingTable, PaymentsReadBack, PostingsReadBack};

/// What the bytes of payloads hold are transactions, or malformed.
pub fn payloads_hold_transactions()
    ensures { PayloadsHoldTransactions }
{}

/// The rows of a place of `transactions` have the status of its receipt.
pub fn rows_have_status()
    ensures { RowsHaveStatus }
{}

/// What the rows of a place of `transactions` paid adds up to what its receipt moved.
pub fn paid_adds_up()
    ensures { PaidAddsUp }
{}

/// The places of the rows of `transactions` are those of the `tx` lines: every place has a row, and
/// every row is of one of them.
pub fn places_are_rows()
    ensures { PlacesAreRows }
{}

/// The report has a `tx` line exactly where `transactions` has rows of its place, all with its status, whose `paid` add up
/// to its MOVED.
pub fn rows_are_tx_lines()
    ensures { RowsAreTxLines }
{}

/// Of the places with one `from` and `seq` at most one has status 0, 5 or 6, of any transactions on any
/// accounts (`chains_count_once` says it of a chain of feeds). So the rows of `transactions` with such a status and one `from` and `seq` are of one
/// place, and `from`, `seq` and `item` name one of them, as `place` and `item` name one of all rows
/// of a feed.
pub fn counts_once()
    ensures places { CountsOnce }
    ensures rows { RowsCountOnce }
    ensures named { RowsNamedByPlace }
    ensures once { RowsNamedOnce }
{}

/// The rows of `transactions` with a list are those without it that name an account of the list.
pub fn list_picks_rows()
    ensures { ListPicksRows }
{}

/// The rows of `postings` with a list are those without it whose account the list names.
pub fn list_picks_postings()
    ensures { ListPicksPostings }
{}

/// The rows of `batches` are the report's `batch` lines, and the certificate of each is one of its
/// `cert` lines.
pub fn rows_are_batch_lines()
    ensures { RowsAreBatchLines }
{}

/// The rows of `postings` of one account are the `tx` lines of its `statement`, in order.
pub fn postings_are_entries()
    ensures { PostingsAreEntries }
{}

/// In each place of `postings` the amount `out` is the sum of the amounts `in`.
pub fn out_is_all_in()
    ensures { OutIsAllIn }
{}

/// A feed that has a report has exactly one text of `transactions`, which ends as the report does.
pub fn one_payment_table()
    ensures { OnePaymentTable }
{}

/// A feed that has a report has exactly one text of `postings`, which ends as the report does.
pub fn one_posting_table()
    ensures { OnePostingTable }
{}

/// A feed that has a report has exactly one text of `batches`, which ends as the report does.
pub fn one_batch_table()
    ensures { OneBatchTable }
{}

/// A reader of the kit's `csv` with its defaults, but for no header row, reads each text as its
/// header and the fields of its rows.
pub fn csv_reads_back()
    ensures batches { BatchesReadBack }
    ensures transactions { PaymentsReadBack }
    ensures postings { PostingsReadBack }
{}
