//! Text that several threads make at once.

ghost use Rattle.std.specs.Prelude.{◌≡◌, ◌+◌, ◌*◌, ◌^◌, ◌<◌, ◌≤◌, drop, length, take, IfOk, MatchOption};
ghost use Rattle.std.specs.Thread.{IsSync};
ghost use Rattle.bk_report.specs.Lines.{text_of};
ghost use Rattle.bk_report.specs.Pages.{IsReady, Puts, desk};
ghost use Rattle.bk_report.specs.RunLines.{rows_lines};
ghost use Rattle.bk_report.specs.Sheets.{IsPiece, IsRound};
ghost use Rattle.bk_report.specs.declared.sheets.TheConstants.{WORTH_THREADS};

use crate::page::{LINE, Page};
use crate::rows::put_lines;
use bk_base::Row;
use bk_frames::Sink;
use bk_rules::PackedReceipt;
use std::alloc::{AllocError, Global};
use std::marker::Model;
use std::mem::swap;
use std::thread::{Threads, join_mut};

// How many lines a thread makes before they are written: enough to be worth its start. The number is none of the
// format's.
const LINES: usize = 16_384;

// How many lines are made at once.
const ROUND: usize = 4 * LINES;

/// Fewer lines are not worth the start of threads.
pub const WORTH_THREADS: usize = 4_096;

// The text of some lines.
#[derive(Drop)]
struct Sheet {
    text: Vec<u8>,
}

impl Model for Sheet {
    ghost use Rattle.std.specs.Prelude.{◌*◌, ◌≤◌, ℕ, List};
    ghost use Rattle.std.specs.Vec.{vec_capacity};

    ghost Value = { List ℕ };

    ghost view = { λ s. s.text.items };

    ghost invariant = { λ s. 96 * 16384 ≤ vec_capacity s.text };
}

impl Sheet {
    // An empty one, with room for its lines.
    fn new(alloc: Global) -> Result<Sheet, AllocError> {
        Ok(Sheet {
            text: Vec::with_capacity(alloc, LINE * LINES)?,
        })
    }

    // Makes it the text of the lines from one on.
    fn fill(&mut self, receipts: &[PackedReceipt], rows: &[Row], start: usize)
        requires receipts { length receipts.now < 2 ^ 32 }
        requires rows { length rows.now < 2 ^ 32 }
        ensures { IsPiece (rows_lines receipts.now rows.now) start self.new }
    {
        self.text.clear();
        let left = (receipts.len() + rows.len()).saturating_sub(start);
        put_lines(receipts, rows, start, LINES.min(left), &mut self.text);
    }
}

// Room for the text of lines that are made at once, each sheet by a thread. Contracts see the text of all four.
#[derive(Drop)]
struct Four {
    a: Sheet,
    b: Sheet,
    c: Sheet,
    d: Sheet,
}

impl Model for Four {
    ghost use Rattle.std.specs.Prelude.{◌++◌, ℕ, List};

    ghost Value = { List ℕ };

    ghost view = { λ f. f.a ++ f.b ++ f.c ++ f.d };
}

/// Room for the text of lines that several threads make. While some are put, those after them are made.
#[derive(Drop)]
pub struct Sheets {
    front: Four,
    back: Four,
}

// Empty ones.
fn four_sheets(alloc: Global) -> Result<Four, AllocError> {
    let a = Sheet::new(alloc)?;
    let b = Sheet::new(alloc)?;
    let c = Sheet::new(alloc)?;
    let d = Sheet::new(alloc)?;
    Ok(Four { a, b, c, d })
}

/// Room for the text of this many lines, `None` where they are not worth several threads: fewer than [`WORTH_THREADS`].
/// `AllocError` where memory runs out.
pub fn sheets_for(alloc: Global, lines: usize) -> Result<Option<Sheets>, AllocError>
    ensures { IfOk result (λ found. MatchOption found (lines < WORTH_THREADS)
        (λ _. WORTH_THREADS ≤ lines)) }
{
    if lines < WORTH_THREADS {
        return Ok(None);
    }
    let front = four_sheets(alloc)?;
    let back = four_sheets(alloc)?;
    Ok(Some(Sheets { front, back }))
}

// Makes the text of the lines from one on, in two threads.
fn fill_two<R: Threads + Sync>(
    rt: &R,
    one: &mut Sheet,
    two: &mut Sheet,
    receipts: &[PackedReceipt],
    rows: &[Row],
    start: usize,
)
    requires receipts { length receipts.now < 2 ^ 32 }
    requires rows { length rows.now < 2 ^ 32 }
    requires start { start < 2 ^ 40 }
    ensures one { IsPiece (rows_lines receipts.now rows.now) start one.new }
    ensures two { IsPiece (rows_lines receipts.now rows.now) (start + 16384) two.new }
{
    join_mut(
        rt,
        &mut ||
            requires { (length receipts.now < 2 ^ 32) × (length rows.now < 2 ^ 32) }
            ensures { IsPiece (rows_lines receipts.entry.now rows.entry.now) start one.exit.now }
        { one.fill(receipts, rows, start) },
        &mut ||
            requires { (length receipts.now < 2 ^ 32) × (length rows.now < 2 ^ 32)
                × (start < 2 ^ 40) }
            ensures { IsPiece (rows_lines receipts.entry.now rows.entry.now) (start + 16384)
                two.exit.now }
        { two.fill(receipts, rows, start + LINES) },
    );
}

impl Four {
    // Makes the text of the lines from one on, in four threads.
    fn fill<R: Threads + Sync>(
        &mut self,
        rt: &R,
        receipts: &[PackedReceipt],
        rows: &[Row],
        start: usize,
    )
        requires receipts { length receipts.now < 2 ^ 32 }
        requires rows { length rows.now < 2 ^ 32 }
        requires start { start < 2 ^ 39 }
        ensures { IsRound (rows_lines receipts.now rows.now) start self.new }
    {
        let Four { a, b, c, d } = self;
        join_mut(
            rt,
            &mut ||
                requires { IsSync R.row × (length receipts.now < 2 ^ 32)
                    × (length rows.now < 2 ^ 32) × (start < 2 ^ 39) }
                ensures { IsPiece (rows_lines receipts.entry.now rows.entry.now) start a.exit.now
                    × IsPiece (rows_lines receipts.entry.now rows.entry.now) (start + 16384)
                    b.exit.now }
            { fill_two(rt, a, b, receipts, rows, start) },
            &mut ||
                requires { IsSync R.row × (length receipts.now < 2 ^ 32)
                    × (length rows.now < 2 ^ 32) × (start < 2 ^ 39) }
                ensures { IsPiece (rows_lines receipts.entry.now rows.entry.now) (start + 32768)
                    c.exit.now
                    × IsPiece (rows_lines receipts.entry.now rows.entry.now) (start + 49152)
                    d.exit.now }
            { fill_two(rt, c, d, receipts, rows, start + 2 * LINES) },
        );
    }

    // Puts the four texts.
    fn put<K: Sink>(&self, sink: &mut K, page: &mut Page)
        requires { IsReady (desk page.old (K.state sink.old)) }
        ensures { Puts (desk page.old (K.state sink.old)) (desk page.new (K.state sink.new))
            (length self.now) self.now }
    {
        page.put_whole(sink, &self.a.text);
        page.put_whole(sink, &self.b.text);
        page.put_whole(sink, &self.c.text);
        page.put_whole(sink, &self.d.text);
    }
}

// Puts the text of the lines from one on, which is made, and makes that of the lines after them.
fn put_round<R: Threads + Sync, K: Sink>(
    rt: &R,
    sink: &mut K,
    page: &mut Page,
    front: &Four,
    back: &mut Four,
    receipts: &[PackedReceipt],
    rows: &[Row],
    start: usize,
)
    requires ready { IsReady (desk page.old (K.state sink.old)) }
    requires few { (length receipts.now < 2 ^ 32) × (length rows.now < 2 ^ 32) × (start < 2 ^ 38) }
    requires made { IsRound (rows_lines receipts.now rows.now) start front.now }
    ensures put { Puts (desk page.old (K.state sink.old)) (desk page.new (K.state sink.new))
        (96 * 65536) (text_of (take 65536 (drop start (rows_lines receipts.now rows.now)))) }
    ensures makes { IsRound (rows_lines receipts.now rows.now) (start + 65536) back.new }
{
    join_mut(
        rt,
        &mut ||
            requires { IsSync R.row × (length receipts.now < 2 ^ 32)
                × (length rows.now < 2 ^ 32) × (start < 2 ^ 38) }
            ensures { IsRound (rows_lines receipts.entry.now rows.entry.now) (start + 65536)
                back.exit.now }
        { back.fill(rt, receipts, rows, start + ROUND) },
        &mut ||
            requires { IsReady (desk page.now (K.state sink.now)) }
            ensures { Puts (desk page.entry.now (K.state sink.entry.now))
                (desk page.exit.now (K.state sink.exit.now)) (length front.entry.now)
                front.entry.now }
        { front.put(sink, page) },
    );
}

// Puts all lines, of which the first are made.
fn put_rounds<R: Threads + Sync, K: Sink>(
    rt: &R,
    sink: &mut K,
    page: &mut Page,
    front: &mut Four,
    back: &mut Four,
    receipts: &[PackedReceipt],
    rows: &[Row],
)
    requires ready { IsReady (desk page.old (K.state sink.old)) }
    requires few { (length receipts.now < 2 ^ 32) × (length rows.now < 2 ^ 32) }
    requires made { IsRound (rows_lines receipts.now rows.now) 0 front.old }
    ensures { Puts (desk page.old (K.state sink.old)) (desk page.new (K.state sink.new)) (2 ^ 44)
        (text_of (rows_lines receipts.now rows.now)) }
{
    let count = receipts.len() + rows.len();
    for round in 0..count.div_ceil(ROUND) {
        put_round(rt, sink, page, front, back, receipts, rows, round * ROUND);
        swap(front, back);
    }
}

/// Puts the lines of transactions and of accounts, which several threads make at once.
pub(crate) fn put_sheets<R: Threads + Sync, K: Sink>(
    rt: &R,
    sink: &mut K,
    page: &mut Page,
    sheets: &mut Sheets,
    receipts: &[PackedReceipt],
    rows: &[Row],
)
    requires ready { IsReady (desk page.old (K.state sink.old)) }
    requires few { (length receipts.now < 2 ^ 32) × (length rows.now < 2 ^ 32) }
    ensures { Puts (desk page.old (K.state sink.old)) (desk page.new (K.state sink.new)) (2 ^ 44)
        (text_of (rows_lines receipts.now rows.now)) }
{
    let Sheets { front, back } = sheets;
    front.fill(rt, receipts, rows, 0);
    put_rounds(rt, sink, page, front, back, receipts, rows);
}
