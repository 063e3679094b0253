//! The lines of transactions and of accounts, by their number.

ghost use Rattle.std.specs.Prelude.{◌≡◌, ◌+◌, ◌-◌, ◌*◌, ◌^◌, ◌<◌, ◌≤◌, ◌∷◌, ◌++◌, [], Some, drop, length, slice_get, take, vec_len};
ghost use Rattle.std.specs.Vec.{vec_capacity};
ghost use Rattle.bk_report.specs.Lines.{line_text, text_of};
ghost use Rattle.bk_report.specs.RunLines.{rows_lines};
ghost use Rattle.bk_report.specs.declared.line.Line.{Line};
ghost use Rattle.bk_results.specs.Lines.{spaced};

use crate::page::{put_text, write_before};
use bk_base::Row;
use bk_rules::{PackedReceipt, Receipt};

// How many lines are written before they are copied to a text, at once.
const BLOCK: usize = 64;

// Writes a word before an index of a text, and returns where it begins.
#[inline(always)]
fn word_before(text: &mut [u8], end: usize, word: &[u8]) -> usize
    requires { (length word.now ≤ end) × (end ≤ length text.old) }
    ensures text { drop result text.new ≡ word.now ++ drop end text.old }
    ensures start { result + length word.now ≡ end }
    ensures length { length text.new ≡ length text.old }
{
    let start = end - word.len();
    text[start..end].copy_from_slice(word);
    start
}

// Writes a line of a word and three numbers before an index of a text, and returns where it begins.
#[inline(always)]
fn three_before(text: &mut [u8], end: usize, word: &[u8], one: u64, two: u64, three: u64) -> usize
    requires short { length word.now ≤ 7 }
    requires room { (96 ≤ end) × (end ≤ length text.old) }
    ensures text { drop result text.new
        ≡ (((word.now ++ spaced one ++ spaced two ++ spaced three) ++ 10 ∷ []) ++ drop end text.old) }
    ensures start { (result ≤ end) × (end ≤ result + 96) }
    ensures length { length text.new ≡ length text.old }
{
    let at = end - 1;
    text[at] = b'\n';
    let at = write_before(text, at, three);
    let at = write_before(text, at, two);
    let at = write_before(text, at, one);
    word_before(text, at, word)
}

// Writes one of these lines before an index of a text, and returns where it begins.
#[inline(always)]
fn line_before(
    receipts: &[PackedReceipt],
    rows: &[Row],
    index: usize,
    text: &mut [u8],
    end: usize,
) -> usize
    requires receipts { length receipts.now < 2 ^ 32 }
    requires inside { index < length receipts.now + length rows.now }
    requires room { (96 ≤ end) × (end ≤ length text.old) }
    ensures text { (l : Line) → slice_get (rows_lines receipts.now rows.now) index ≡ Some l
        → drop result text.new ≡ (line_text l ++ 10 ∷ []) ++ drop end text.old }
    ensures start { (result ≤ end) × (end ≤ result + 96) }
    ensures length { length text.new ≡ length text.old }
{
    if index < receipts.len() {
        let Receipt { status, moved } = receipts[index].receipt();
        let place = index as u64;
        let status = u64::from(status.number());
        return three_before(text, end, b"tx", place, status, moved);
    }
    let Row { id, balance, seq } = rows[index - receipts.len()];
    three_before(text, end, b"account", id, balance, seq)
}

// Writes this many lines, from the one at an index on, to the end of a text, and returns the offset where they begin.
//
// The last line is written first, and each number from its last digit on: a copy of digits that were just written would
// wait for them.
fn write_lines(
    receipts: &[PackedReceipt],
    rows: &[Row],
    start: usize,
    count: usize,
    text: &mut [u8],
) -> usize
    requires receipts { length receipts.now < 2 ^ 32 }
    requires rows { length rows.now < 2 ^ 32 }
    requires inside { count ≤ length receipts.now + length rows.now - start }
    requires room { 96 * count ≤ length text.old }
    ensures text { drop result text.new
        ≡ text_of (take count (drop start (rows_lines receipts.now rows.now))) }
    ensures within { result ≤ length text.new }
    ensures size { length text.new ≤ result + 96 * count }
    ensures length { length text.new ≡ length text.old }
{
    let mut at = text.len();
    for done in 0..count {
        at = line_before(receipts, rows, start + (count - 1 - done), text, at);
    }
    at
}

/// Puts this many lines from one on, where there is room for 96 bytes for each.
pub(crate) fn put_lines(
    receipts: &[PackedReceipt],
    rows: &[Row],
    start: usize,
    count: usize,
    text: &mut Vec<u8>,
)
    requires receipts { length receipts.now < 2 ^ 32 }
    requires rows { length rows.now < 2 ^ 32 }
    requires inside { count ≤ length receipts.now + length rows.now - start }
    requires room { vec_len text.old + 96 * count ≤ vec_capacity text.old }
    ensures text { text.new.items ≡ text.old.items
        ++ text_of (take count (drop start (rows_lines receipts.now rows.now))) }
    ensures room { vec_capacity text.old ≤ vec_capacity text.new }
    ensures size { vec_len text.new ≤ vec_len text.old + 96 * count }
{
    // Room for the longest lines of a block.
    let mut block = [0u8; 6_144];
    let mut done = 0;
    while done < count {
        let some = BLOCK.min(count - done);
        let at = write_lines(receipts, rows, start + done, some, &mut block);
        put_text(text, &block[at..]);
        done += some;
    }
}
