//! A table that is written while its feed is followed.

ghost use Rattle.std.specs.Prelude.{◌≡◌, ◌<◌, ◌≤◌, ℕ, List, [], Option, length, false, IfOk, IfErr, IfSome, OnOk};
ghost use Rattle.bk_answer.specs.Answers.{IsAnswered};
ghost use Rattle.bk_answer.specs.Flaws.{judged_text};
ghost use Rattle.bk_base.specs.Feed.{Frame};
ghost use Rattle.bk_base.specs.declared.genesis.Row.{Row};
ghost use Rattle.bk_base.specs.declared.version.Version.{Version};
ghost use Rattle.bk_follow.specs.Follower.{HasCome, IsSettled, unfed};
ghost use Rattle.bk_frames.specs.Device.{CanBeUsed, Device};
ghost use Rattle.bk_frames.specs.declared.pulling.TheConstants.{PIECE};
ghost use Rattle.bk_order.specs.Orders.{Ordered};
ghost use Rattle.bk_results.specs.Devices.{devices};
ghost use Rattle.bk_tables.specs.Growing.{none_shown};
ghost use Rattle.bk_tail.specs.Tailing.{EndsAsAsked, TailFailsBy};
ghost use Rattle.bk_tail.specs.private.Putting.{IsPutOn, PutNot, WherePut};

use crate::piece::{advance, reach};
use bk_answer::Ended;
use bk_follow::{Follower, Settings};
use bk_frames::{PIECE, Sink, Source};
use bk_pool::Gate;
use bk_results::{Fault, Status};
use bk_tables::{Accounts, TableRows};
use std::alloc::Global;
use std::sync::Wait;
use std::thread::Threads;
use std::time::Clock;

// Puts the rows of the places that were executed since the last call.
fn put_new<T: TableRows, K: Sink>(
    alloc: Global,
    rows: &mut T,
    sink: &mut K,
    accounts: &Option<Accounts>,
    follower: &Follower,
) -> Result<(), Fault>
    requires sound { CanBeUsed (K.state sink.old) }
    requires put { (bytes : List ℕ) × (frames : List Frame) × (first : Device) × (done : Ordered)
        × HasCome bytes frames follower.now × IsSettled frames follower.now
        × IsPutOn (T.kind accounts.now) bytes frames follower.now
        first (K.state sink.old) (T.shown rows.old) (T.holds rows.old) done }
    ensures put { OnOk result (WherePut (T.kind accounts.now) follower.now
        (K.state sink.old) (T.shown rows.old) (T.holds rows.old)
        (λ bytes frames first. (now : Ordered)
        × IsPutOn (T.kind accounts.now) bytes frames follower.now first (K.state sink.new)
        (T.shown rows.new) (T.holds rows.new) now
        × IfSome follower.now.book (λ b. now ≡ b.taken.ordered))) }
    ensures fault { IfErr result (λ f. WherePut (T.kind accounts.now) follower.now
        (K.state sink.old) (T.shown rows.old) (T.holds rows.old)
        (λ bytes frames first. PutNot (T.kind accounts.now) f bytes first (K.state sink.new))) }
{
    match follower.closed() {
        Some(closed) => rows.put_more(alloc, sink, accounts, &closed),
        None => Ok(()),
    }
}

// Follows all that a source has, and writes its table. The piece is room for its bytes.
fn tail_rows<R, S: Source, K: Sink, G: Gate + Sync, T: TableRows>(
    rt: &R,
    alloc: Global,
    source: &mut S,
    sink: &mut K,
    piece: &mut [u8],
    follower: &mut Follower,
    gate: &G,
    accounts: &Option<Accounts>,
    strict: bool,
    waits: bool,
    rows: &mut T,
) -> Result<Ended<Status>, Fault>
where
    R: Clock + Threads + Wait + Sync,
    requires some { 0 < length piece.old }
    requires few { length piece.old ≤ PIECE }
    requires first { follower.old ≡ unfed }
    requires none { T.shown rows.old ≡ none_shown (T.kind accounts.now).header }
    requires before { (version : Version) (genesis : List Row) → T.holds rows.old version genesis [] }
    requires source { CanBeUsed (S.state source.old) }
    requires sink { CanBeUsed (K.state sink.old) }
    ensures unwaited { IfOk result (λ ended. waits ≡ false) }
    ensures answer { IfOk result (λ ended. IsAnswered (judged_text strict (T.kind accounts.now).text) ended
        (devices (S.state source.old) (K.state sink.old))
        (devices (S.state source.new) (K.state sink.new))) }
    ensures fault { IfErr result (λ f. TailFailsBy (T.kind accounts.now).text f
        (devices (S.state source.old) (K.state sink.old))
        (devices (S.state source.new) (K.state sink.new))) }
    ensures asked { IfErr result (λ f. EndsAsAsked waits f
        (S.state source.old) (S.state source.new)) }
{
    'pieces: loop {
        let ended = advance(rt, source, piece, follower, gate, waits)?;
        put_new(alloc, rows, sink, accounts, follower)?;
        if ended {
            let flaw = follower.flaw_if(strict)?;
            rows.put_end(sink)?;
            let end = reach(follower);
            return Ok(Ended { end, flaw });
        }
    }
}

/// Reads a feed to its end, and writes a table of it as it becomes final: after each piece of at most [`PIECE`] bytes, the
/// rows of the places that the whole frames so far add to the order, before more is read. The header comes with the first
/// rows, or at the end. What rows need of the places before them is kept, so a piece executes only its own places for them.
/// With a list, only the rows that have one of its accounts are written. Where `strict` is set, it is found at the end what
/// keeps the feed from counting whole. Where `waits` is set, there is no end: at the end of the source it waits for more,
/// and only an error ends it.
///
/// A fault of the feed or a stop ends it at the piece that shows it, and of that piece no row is written. What is out
/// then is the table of a feed that nothing stops, or nothing; what a failed sink has is the beginning of one.
pub fn tail_table<R, S: Source, K: Sink, G: Gate + Sync, T: TableRows + Drop>(
    rt: &R,
    alloc: Global,
    source: &mut S,
    sink: &mut K,
    settings: Settings,
    gate: &G,
    accounts: &Option<Accounts>,
    strict: bool,
    waits: bool,
) -> Result<Ended<Status>, Fault>
where
    R: Clock + Threads + Wait + Sync,
    requires source { CanBeUsed (S.state source.old) }
    requires sink { CanBeUsed (K.state sink.old) }
    ensures unwaited { IfOk result (λ ended. waits ≡ false) }
    ensures answer { IfOk result (λ ended. IsAnswered (judged_text strict (T.kind accounts.now).text) ended
        (devices (S.state source.old) (K.state sink.old))
        (devices (S.state source.new) (K.state sink.new))) }
    ensures fault { IfErr result (λ f. TailFailsBy (T.kind accounts.now).text f
        (devices (S.state source.old) (K.state sink.old))
        (devices (S.state source.new) (K.state sink.new))) }
    ensures asked { IfErr result (λ f. EndsAsAsked waits f
        (S.state source.old) (S.state source.new)) }
{
    let mut piece = vec![in alloc; 0u8; PIECE]?;
    let mut rows = T::none(alloc)?;
    let mut follower = Follower::new(alloc, settings);
    let end = tail_rows(
        rt,
        alloc,
        source,
        sink,
        piece.as_mut_slice(),
        &mut follower,
        gate,
        accounts,
        strict,
        waits,
        &mut rows,
    );
    follower.discard();
    end
}
