//! The text of lines, gathered in a page before it goes to a sink.

ghost use Rattle.std.specs.Prelude.{◌≡◌, ◌+◌, ◌*◌, ◌^◌, ◌<◌, ◌≤◌, ◌∷◌, ◌++◌, ℕ, List, [], drop, length, vec_len, false, IfOk, OnOk};
ghost use Rattle.std.specs.Vec.{vec_capacity};
ghost use Rattle.bk_frames.specs.Device.{Device};
ghost use Rattle.bk_report.specs.Lines.{line_text, hashed};
ghost use Rattle.bk_results.specs.Lines.{spaced};
ghost use Rattle.bk_report.specs.declared.line.Line.TheVariants.{Members};
ghost use Rattle.bk_report.specs.Pages.{HasPut, IsReady, PageValue, Puts, Written, desk};

use crate::line::Line;
use bk_digest::Digest32;
use bk_frames::{Sink, WriteFault, push_all};
use itoa::write_digits;
use std::alloc::{AllocError, Global};
use std::marker::Model;

// A page goes out before it has more bytes. The number is none of the format's.
const PAGE: usize = 65_536;

/// No line has more bytes, its line feed among them.
pub(crate) const LINE: usize = 96;

// Puts a text where there is room for it.
#[inline(always)]
pub(crate) fn put_text(page: &mut Vec<u8>, text: &[u8])
    requires { vec_len page.old + length text.now ≤ vec_capacity page.old }
    ensures items { page.new.items ≡ page.old.items ++ text.now }
    ensures len { vec_len page.new ≡ vec_len page.old + length text.now }
    ensures room { vec_capacity page.old ≤ vec_capacity page.new }
{
    page.extend_from_slice(text).unwrap();
}

// Writes a space and a number before a place of a text, and says where they begin.
#[inline(always)]
#[tactic(auto, using(crate::proofs::Numbers::number_short, crate::proofs::Numbers::set_before))]
pub(crate) fn write_before(text: &mut [u8], end: usize, number: u64) -> usize
    requires { (21 ≤ end) × (end ≤ length text.old) }
    ensures text { drop result text.new ≡ spaced number ++ drop end text.old }
    ensures start { (result ≤ end) × (end ≤ result + 21) }
    ensures length { length text.new ≡ length text.old }
{
    let start = write_digits(number, text, end) - 1;
    text[start] = b' ';
    start
}

// Puts a word and a number where there is room for 28 bytes.
#[inline(always)]
fn put_one(page: &mut Vec<u8>, word: &[u8], one: u64)
    requires short { length word.now ≤ 7 }
    requires room { vec_len page.old + 28 ≤ vec_capacity page.old }
    ensures items { page.new.items ≡ page.old.items ++ (word.now ++ spaced one) }
    ensures len { vec_len page.new ≤ vec_len page.old + 28 }
    ensures room { vec_capacity page.old ≤ vec_capacity page.new }
{
    put_text(page, word);
    let mut text = [0; 21];
    let at = write_before(&mut text, 21, one);
    put_text(page, &text[at..]);
}

// Puts a word and two numbers where there is room for 49 bytes.
#[inline(always)]
fn put_two(page: &mut Vec<u8>, word: &[u8], one: u64, two: u64)
    requires short { length word.now ≤ 7 }
    requires room { vec_len page.old + 49 ≤ vec_capacity page.old }
    ensures items { page.new.items ≡ page.old.items ++ (word.now ++ spaced one ++ spaced two) }
    ensures len { vec_len page.new ≤ vec_len page.old + 49 }
    ensures room { vec_capacity page.old ≤ vec_capacity page.new }
{
    put_text(page, word);
    let mut text = [0; 42];
    let at = write_before(&mut text, 42, two);
    let at = write_before(&mut text, at, one);
    put_text(page, &text[at..]);
}

// Puts a word and three numbers where there is room for 70 bytes.
//
// The numbers are written from the last to the first, and copied once: a copy of digits that were just written waits for
// them.
#[inline(always)]
fn put_three(page: &mut Vec<u8>, word: &[u8], one: u64, two: u64, three: u64)
    requires short { length word.now ≤ 7 }
    requires room { vec_len page.old + 70 ≤ vec_capacity page.old }
    ensures items { page.new.items
        ≡ page.old.items ++ (word.now ++ spaced one ++ spaced two ++ spaced three) }
    ensures len { vec_len page.new ≤ vec_len page.old + 70 }
    ensures room { vec_capacity page.old ≤ vec_capacity page.new }
{
    put_text(page, word);
    let mut text = [0; 63];
    let at = write_before(&mut text, 63, three);
    let at = write_before(&mut text, at, two);
    let at = write_before(&mut text, at, one);
    put_text(page, &text[at..]);
}

// Puts a word, a space and a digest where there is room for 72 bytes.
fn put_digest(page: &mut Vec<u8>, word: &[u8], digest: &Digest32)
    requires short { length word.now ≤ 7 }
    requires room { vec_len page.old + 72 ≤ vec_capacity page.old }
    ensures items { page.new.items ≡ page.old.items ++ hashed word.now digest.now }
    ensures len { vec_len page.new ≤ vec_len page.old + 72 }
    ensures room { vec_capacity page.old ≤ vec_capacity page.new }
{
    let mut digits = [0u8; 64];
    // There is room for all 64 digits.
    let _ = hex::encode_to_slice(digest.as_bytes(), &mut digits);
    put_text(page, word);
    put_text(page, b" ");
    put_text(page, &digits);
}

// Puts the three numbers of a committee where there is room for 84 bytes.
fn put_members(page: &mut Vec<u8>, members: u8, faulty: u64, quorum: u64)
    requires { vec_len page.old + 84 ≤ vec_capacity page.old }
    ensures items { page.new.items
        ≡ page.old.items ++ line_text (Members members faulty quorum) }
    ensures len { vec_len page.new ≤ vec_len page.old + 84 }
    ensures room { vec_capacity page.old ≤ vec_capacity page.new }
{
    put_one(page, b"members", u64::from(members));
    put_one(page, b" faulty", faulty);
    put_one(page, b" quorum", quorum);
}

/// Puts a line and its line feed where there is room for it.
///
/// It is a part of each caller: a line that goes by way of memory is read in other widths than it was written, which waits
/// for all writes before it.
#[inline(always)]
pub(crate) fn put_line(page: &mut Vec<u8>, line: Line)
    requires { vec_len page.old + 96 ≤ vec_capacity page.old }
    ensures items { page.new.items ≡ page.old.items ++ (line_text line ++ 10 ∷ []) }
    ensures len { vec_len page.new ≤ vec_len page.old + 96 }
    ensures room { vec_capacity page.old ≤ vec_capacity page.new }
{
    match line {
        Line::Members {
            members,
            faulty,
            quorum,
        } => put_members(page, members, faulty, quorum),
        Line::Frames { count } => put_one(page, b"frames", count),
        Line::Reject { frame, rule } => put_two(page, b"reject", frame, u64::from(rule as u8)),
        Line::Waiting { round, author } => {
            put_two(page, b"waiting", u64::from(round), u64::from(author))
        }
        Line::Anchor { round, author } => {
            put_two(page, b"anchor", u64::from(round), u64::from(author))
        }
        Line::Cert { round, author } => {
            put_two(page, b"cert", u64::from(round), u64::from(author))
        }
        Line::Batch { index, count } => {
            put_two(page, b"batch", u64::from(index), u64::from(count))
        }
        Line::VoidBatch { index } => {
            put_one(page, b"batch", u64::from(index));
            put_text(page, b" void");
        }
        Line::Missing { digest } => put_digest(page, b"missing", &digest),
        Line::Tx {
            place,
            status,
            moved,
        } => put_three(
            page,
            b"tx",
            u64::from(place),
            u64::from(status.number()),
            moved,
        ),
        Line::Account { id, balance, seq } => put_three(page, b"account", id, balance, seq),
        Line::Money { total } => put_one(page, b"money", total),
        Line::State { digest } => put_digest(page, b"state", &digest),
        Line::StateGood => put_text(page, b"state good"),
        Line::StateBad => put_text(page, b"state bad"),
        Line::Size { size } => put_one(page, b"size", size),
        Line::Index { index } => put_one(page, b"index", index),
        Line::Path { digest } => put_digest(page, b"path", &digest),
    }
    put_text(page, b"\n");
}

/// Adds a line and its line feed to a text.
pub fn push_line(text: &mut Vec<u8>, line: Line) -> Result<(), AllocError>
    ensures { OnOk result (text.new.items ≡ text.old.items ++ (line_text line ++ 10 ∷ [])) }
{
    text.reserve(LINE)?;
    put_line(text, line);
    Ok(())
}

/// A page of a text that goes out to a sink, and how many bytes have gone out before it. Once the sink has failed, all that is
/// put is lost: nobody who puts a text need ask. [`Page::end`] says how it went.
#[derive(Debug, Drop)]
pub struct Page {
    bytes: Vec<u8>,
    out: u64,
    failed: bool,
}

impl Model for Page {
    ghost use Rattle.std.specs.Prelude.{◌≤◌};
    ghost use Rattle.std.specs.Vec.{vec_capacity};
    ghost use Rattle.bk_report.specs.Pages.{PageValue};

    ghost Value = { PageValue };

    ghost view = { λ p. record { out = p.out; bytes = p.bytes.items; failed = p.failed } };

    ghost invariant = { λ p. 65536 ≤ vec_capacity p.bytes };
}

impl Page {
    /// An empty page, with all the room that it ever needs.
    pub fn new(alloc: Global) -> Result<Page, AllocError>
        ensures { IfOk result (λ page. page ≡ record { out = 0; bytes = []; failed = false }) }
    {
        Ok(Page {
            bytes: Vec::with_capacity(alloc, PAGE)?,
            out: 0,
            failed: false,
        })
    }

    // Lets what the page holds go out.
    fn flush<K: Sink>(&mut self, sink: &mut K)
        requires { IsReady (desk self.old (K.state sink.old)) }
        ensures put { Puts (desk self.old (K.state sink.old)) (desk self.new (K.state sink.new)) 0
            [] }
        ensures empty { self.new.bytes ≡ [] }
    {
        if self.failed {
            self.bytes.clear();
            return;
        }
        match push_all(sink, &self.bytes) {
            Ok(()) => {
                self.out = self.out.saturating_add(self.bytes.len() as u64);
                self.bytes.clear();
            }
            Err(fault) => {
                self.out = self.out.saturating_add(fault.written);
                self.failed = true;
                self.bytes.clear();
            }
        }
    }

    // Lets a text go out, where the page is empty.
    fn push<K: Sink>(&mut self, sink: &mut K, text: &[u8])
        requires ready { IsReady (desk self.old (K.state sink.old)) }
        requires empty { self.old.bytes ≡ [] }
        ensures { Puts (desk self.old (K.state sink.old)) (desk self.new (K.state sink.new))
            (length text.now) text.now }
    {
        if self.failed {
            return;
        }
        match push_all(sink, text) {
            Ok(()) => self.out = self.out.saturating_add(text.len() as u64),
            Err(fault) => {
                self.out = self.out.saturating_add(fault.written);
                self.failed = true;
            }
        }
    }

    /// Lets the page go out, and a text after it.
    pub(crate) fn put_whole<K: Sink>(&mut self, sink: &mut K, text: &[u8])
        requires { IsReady (desk self.old (K.state sink.old)) }
        ensures { Puts (desk self.old (K.state sink.old)) (desk self.new (K.state sink.new))
            (length text.now) text.now }
    {
        self.flush(sink);
        self.push(sink, text);
    }

    /// Puts a text, after the page went out where it had no room for it. No memory is taken.
    pub fn put_text<K: Sink>(&mut self, sink: &mut K, text: &[u8])
        requires { IsReady (desk self.old (K.state sink.old)) }
        ensures { Puts (desk self.old (K.state sink.old)) (desk self.new (K.state sink.new))
            (length text.now) text.now }
    {
        if text.len() > PAGE - self.bytes.len().min(PAGE) {
            return self.put_whole(sink, text);
        }
        put_text(&mut self.bytes, text);
    }

    // Lets the page go out where it could get too long by a line.
    #[inline(always)]
    fn make_room<K: Sink>(&mut self, sink: &mut K)
        requires { IsReady (desk self.old (K.state sink.old)) }
        ensures put { Puts (desk self.old (K.state sink.old)) (desk self.new (K.state sink.new)) 0
            [] }
        ensures room { length self.new.bytes + 96 ≤ 65536 }
    {
        if self.bytes.len() > PAGE - LINE {
            self.flush(sink);
        }
    }

    /// Puts a line, and lets the page go out first where it could get too long.
    #[inline(always)]
    pub fn put<K: Sink>(&mut self, sink: &mut K, line: Line)
        requires { IsReady (desk self.old (K.state sink.old)) }
        ensures { Puts (desk self.old (K.state sink.old)) (desk self.new (K.state sink.new)) 96
            (line_text line ++ 10 ∷ []) }
    {
        self.make_room(sink);
        put_line(&mut self.bytes, line);
    }

    /// Lets all that was put go out, and says whether the sink ever failed. More may be put after it.
    pub fn end<K: Sink>(&mut self, sink: &mut K) -> Result<(), WriteFault>
        requires { IsReady (desk self.old (K.state sink.old)) }
        ensures written { (start : Device) (text : List ℕ)
            → HasPut start (desk self.old (K.state sink.old)) text → length text < 2 ^ 62
            → Written result start (K.state sink.new) text }
        ensures more { Puts (desk self.old (K.state sink.old)) (desk self.new (K.state sink.new)) 0
            [] }
        ensures works { OnOk result (self.new.failed ≡ false) }
    {
        self.flush(sink);
        if self.failed {
            let written = self.out;
            return Err(WriteFault { written });
        }
        Ok(())
    }
}
