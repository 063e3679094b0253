//! A feed that is read to its end, and what is asked of it.

ghost use Rattle.std.specs.Prelude.{◌≡◌, true, false, None, Err, OnOk, IfOk, IfErr, IfSome};
ghost use Rattle.bk_answer.specs.Answers.{AnswerFailsBy, IsAnswered, WritesAnswer, WritesNot};
ghost use Rattle.bk_frames.specs.Device.{CanBeUsed, GaveAll, Works};
ghost use Rattle.bk_results.specs.Devices.{IsUntouched, devices};
ghost use Rattle.bk_follow.specs.Finishing.{Finishes, FinishFails};
ghost use Rattle.bk_follow.specs.Replaying.{AllHasCome, ReadFails};
ghost use Rattle.bk_follow.specs.private.Answering.{FollowerAnswers, FollowerAnswersNot, IsOfClosed, IsOfOrdered, IsOrderedOf};
ghost use Rattle.bk_follow.specs.private.Books.{IsCurrentOf};

use crate::fault::Fault;
use crate::follower::{Follower, latch};
use crate::settings::{Settings, alone};
use bk_answer::{Answer, OrderAnswer, Report};
use bk_frames::{PIECE, Sink, Source, push_all};
use bk_order::HashKey;
use bk_pool::Gate;
use bk_results::Status;
use std::alloc::Global;
use std::sync::Wait;
use std::thread::Threads;

/// Reads a feed to its end, and settles nothing of it.
pub(crate) fn read<R: Threads + Sync, S: Source>(
    rt: &R,
    alloc: Global,
    source: &mut S,
    settings: Settings,
) -> Result<Follower, Fault>
    requires sound { CanBeUsed (S.state source.old) }
    ensures works { IfOk result (λ v. Works (S.state source.old) (S.state source.new)
        × (v.fault ≡ None)) }
    ensures come { IfOk result (λ v. GaveAll (S.state source.old) (S.state source.new)
        (λ bytes. AllHasCome bytes v)) }
    ensures fault { IfErr result (λ f. ReadFails f (S.state source.old) (S.state source.new)) }
{
    let mut piece = vec![in alloc; 0u8; PIECE]?;
    let mut follower = Follower::new(alloc, settings);
    match follower.follow(rt, source, piece.as_mut_slice()) {
        Ok(()) => Ok(follower),
        Err(fault) => {
            follower.discard();
            Err(fault)
        }
    }
}

// ---- with the batches of the order executed

// Writes the answer of a feed that was followed to its end, and closed.
fn write_closed<R: Threads + Sync, K: Sink, A: Answer>(
    rt: &R,
    follower: &Follower,
    asked: &A,
    sink: &mut K,
) -> Result<A::End, Fault>
    requires ask { A.can_ask asked.now }
    requires sound { CanBeUsed (K.state sink.old) }
    requires closed { IsOfClosed follower.now.book }
    ensures out { IfOk result (λ end. IfSome follower.now.book (λ b.
        WritesAnswer (IsCurrentOf b) (A.text asked.now) end (K.state sink.old) (K.state sink.new))) }
    ensures fault { IfErr result (λ f. IfSome follower.now.book (λ b.
        WritesNot (IsCurrentOf b) (A.text asked.now) f (K.state sink.old) (K.state sink.new))) }
{
    let Some(closed) = follower.closed() else {
        unreachable!()
    };
    asked.write(rt, follower.alloc, &closed, sink)
}

impl Follower {
    /// Settles, and writes the report of the feed that ends here.
    ///
    /// With every fault but `Write` nothing is written. After `Ok`, `Collision` or `Equivocation` the feed may go on.
    pub fn finish<R: Threads + Wait + Sync, G: Gate + Sync, K: Sink>(
        &mut self,
        rt: &R,
        gate: &G,
        sink: &mut K,
    ) -> Result<Status, Fault>
        requires sound { CanBeUsed (K.state sink.old) }
        ensures report { IfOk result (Finishes self.old self.new
            (K.state sink.old) (K.state sink.new)) }
        ensures works { OnOk result ((self.old.fault ≡ None) × (self.new.fault ≡ None)) }
        ensures again { IfSome self.old.fault (λ f. (result ≡ Err f) × (self.new ≡ self.old)
            × IsUntouched (K.state sink.old) (K.state sink.new)) }
        ensures fault { IfErr result (λ f. self.old.fault ≡ None
            → FinishFails self.old self.new (K.state sink.old) (K.state sink.new) f) }
    {
        self.close(rt, gate)?;
        match write_closed(rt, self, &Report, sink) {
            Ok(status) => Ok(status),
            Err(fault) => Err(latch(self.alloc, &mut self.gathered, &mut self.fault, fault)),
        }
    }
}

// Settles the feed that ends here, and writes its answer.
fn close_and_answer<R: Threads + Wait + Sync, G: Gate + Sync, K: Sink, A: Answer>(
    rt: &R,
    follower: &mut Follower,
    gate: &G,
    asked: &A,
    sink: &mut K,
) -> Result<A::End, Fault>
    requires ask { A.can_ask asked.now }
    requires sound { CanBeUsed (K.state sink.old) }
    requires works { follower.old.fault ≡ None }
    ensures out { IfOk result (λ end. FollowerAnswers (A.text asked.now) follower.old end
        (K.state sink.old) (K.state sink.new)) }
    ensures fault { IfErr result (λ f. FollowerAnswersNot (A.text asked.now) true follower.old f
        (K.state sink.old) (K.state sink.new)) }
{
    follower.close(rt, gate)?;
    let end = write_closed(rt, follower, asked, sink)?;
    Ok(end)
}

/// Reads a feed, finds its committed order, executes the order's batches by threads as the settings say, and writes
/// what is asked of it.
///
/// However many workers there are, and however they run, it is what the definitions read off the feed's frames as a set
/// and the transactions one at a time. The whole feed is read before anything is written, and with every fault but
/// `Write` nothing is written.
///
/// What was read is given back, or stays in memory where the answer is the last.
pub fn answer_by_ledger<R, S: Source, K: Sink, G: Gate + Sync, A: Answer>(
    rt: &R,
    alloc: Global,
    source: &mut S,
    sink: &mut K,
    settings: Settings,
    gate: &G,
    asked: &A,
) -> Result<A::End, Fault>
where
    R: Threads + Wait + Sync,
    requires ask { A.can_ask asked.now }
    requires source { CanBeUsed (S.state source.old) }
    requires sink { CanBeUsed (K.state sink.old) }
    ensures answer { IfOk result (λ end. IsAnswered (A.text asked.now) end
        (devices (S.state source.old) (K.state sink.old))
        (devices (S.state source.new) (K.state sink.new))) }
    ensures fault { IfErr result (λ f. AnswerFailsBy (A.text asked.now) true f
        (devices (S.state source.old) (K.state sink.old))
        (devices (S.state source.new) (K.state sink.new))) }
{
    let mut follower = read(rt, alloc, source, settings)?;
    let end = close_and_answer(rt, &mut follower, gate, asked, sink);
    follower.end(asked.is_last());
    end
}

// ---- by the order alone

// Writes the answer of a feed that was followed to its end, and whose order was closed.
fn write_ordered<K: Sink, A: OrderAnswer>(
    follower: &Follower,
    asked: &A,
    sink: &mut K,
) -> Result<A::End, Fault>
    requires ask { A.can_ask asked.now }
    requires sound { CanBeUsed (K.state sink.old) }
    requires ordered { IsOfOrdered follower.now.book }
    ensures out { IfOk result (λ end. IfSome follower.now.book (λ b.
        WritesAnswer (IsOrderedOf b) (A.text asked.now) end (K.state sink.old) (K.state sink.new))) }
    ensures fault { IfErr result (λ f. IfSome follower.now.book (λ b.
        WritesNot (IsOrderedOf b) (A.text asked.now) f (K.state sink.old) (K.state sink.new))) }
{
    let Some(order) = follower.closed_order() else {
        unreachable!()
    };
    let (end, text) = asked.text(follower.alloc, &order)?;
    push_all(sink, &text)?;
    Ok(end)
}

// Settles the order of the feed that ends here, and writes its answer.
fn close_order_and_answer<K: Sink, A: OrderAnswer>(
    follower: &mut Follower,
    asked: &A,
    sink: &mut K,
) -> Result<A::End, Fault>
    requires ask { A.can_ask asked.now }
    requires sound { CanBeUsed (K.state sink.old) }
    requires works { follower.old.fault ≡ None }
    ensures out { IfOk result (λ end. FollowerAnswers (A.text asked.now) follower.old end
        (K.state sink.old) (K.state sink.new)) }
    ensures fault { IfErr result (λ f. FollowerAnswersNot (A.text asked.now) false follower.old f
        (K.state sink.old) (K.state sink.new)) }
{
    follower.close_order()?;
    let end = write_ordered(follower, asked, sink)?;
    Ok(end)
}

/// Reads a feed, finds its committed order, and writes what is asked of the order. Nothing is executed, and nothing waits.
///
/// The whole feed is read before anything is written, and with every fault but `Write` nothing is written. `Unfinished`
/// does not come. What was read is given back, or stays in memory where the answer is the last.
pub fn answer_by_order<R: Threads + Sync, S: Source, K: Sink, A: OrderAnswer>(
    rt: &R,
    alloc: Global,
    key: HashKey,
    source: &mut S,
    sink: &mut K,
    asked: &A,
) -> Result<A::End, Fault>
    requires ask { A.can_ask asked.now }
    requires source { CanBeUsed (S.state source.old) }
    requires sink { CanBeUsed (K.state sink.old) }
    ensures answer { IfOk result (λ end. IsAnswered (A.text asked.now) end
        (devices (S.state source.old) (K.state sink.old))
        (devices (S.state source.new) (K.state sink.new))) }
    ensures fault { IfErr result (λ f. AnswerFailsBy (A.text asked.now) false f
        (devices (S.state source.old) (K.state sink.old))
        (devices (S.state source.new) (K.state sink.new))) }
{
    let mut follower = read(rt, alloc, source, alone(key))?;
    let end = close_order_and_answer(&mut follower, asked, sink);
    follower.end(asked.is_last());
    end
}
