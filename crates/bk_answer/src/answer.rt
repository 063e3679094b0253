//! What is written of a feed that ended.

ghost use Rattle.std.specs.Prelude.{ℕ, List, IfOk, IfErr};
ghost use Rattle.std.specs.Thread.{IsSync};
ghost use Rattle.bk_base.specs.Feed.{FeedValue};
ghost use Rattle.bk_frames.specs.Device.{CanBeUsed};
ghost use Rattle.bk_answer.specs.Answers.{IsMadeOf, IsOrderMadeOf, IsTakenOf, WritesAnswer, WritesNot};
ghost use Rattle.bk_answer.specs.Values.{closed_value, order_value};

use crate::closed::{Closed, ClosedOrder};
use bk_frames::{Sink, push_all};
use bk_order::Intake;
use bk_results::Fault;
use std::alloc::{AllocError, Global};
use std::thread::Threads;

/// What is read off a feed and the executed batches of its order.
pub trait Answer {
    /// How an answer ends: what the caller needs to know of it beside its text.
    type End: Copy;

    // Whether it can be asked for.
    ghost can_ask: { Self → Type 0 };

    // Which texts, with which end, answer it of a feed.
    ghost text: { Self → FeedValue → Self.End → List ℕ → Type 0 };

    /// Whether nothing is done after it, as where a program ends. What was read of the feed then stays in memory: the end of
    /// the process gives it back at once.
    fn is_last(&self) -> bool {
        false
    }

    /// Writes the answer of a feed that ended. The error is `Write` or `Memory`; with `Memory` nothing is written.
    fn write<R: Threads + Sync, K: Sink>(
        &self,
        rt: &R,
        alloc: Global,
        closed: &Closed<'_>,
        sink: &mut K,
    ) -> Result<Self::End, Fault>
        requires sync { IsSync R.row }
        requires ask { can_ask self.now }
        requires sound { CanBeUsed (K.state sink.old) }
        requires closed { (feed : FeedValue) × IsMadeOf (closed_value closed.now) feed }
        ensures out { IfOk result (λ end. WritesAnswer (IsMadeOf (closed_value closed.now)) (text self.now) end
            (K.state sink.old) (K.state sink.new)) }
        ensures fault { IfErr result (λ f. WritesNot (IsMadeOf (closed_value closed.now)) (text self.now) f
            (K.state sink.old) (K.state sink.new)) };
}

/// What is read off a feed and the executed batches of its order, and is one text.
pub trait TextAnswer {
    /// How an answer ends: what the caller needs to know of it beside its text.
    type End: Copy;

    // Whether it can be asked for.
    ghost can_ask: { Self → Type 0 };

    // Which texts, with which end, answer it of a feed.
    ghost text: { Self → FeedValue → Self.End → List ℕ → Type 0 };

    /// The answer of a feed that ended.
    fn text<R: Threads + Sync>(
        &self,
        rt: &R,
        alloc: Global,
        closed: &Closed<'_>,
    ) -> Result<(Self::End, Vec<u8>), AllocError>
        requires sync { IsSync R.row }
        requires ask { can_ask self.now }
        requires closed { (feed : FeedValue) × IsMadeOf (closed_value closed.now) feed }
        ensures { IfOk result (λ r. (feed : FeedValue) → IsMadeOf (closed_value closed.now) feed
            → text self.now feed r.0 r.1.items) };
}

/// An answer that is one text, as one that is written.
#[derive(Clone, Copy)]
pub struct AtOnce<'a, A> {
    /// The answer.
    pub answer: &'a A,
}

impl<'a, A: TextAnswer> Answer for AtOnce<'a, A> {
    type End = A::End;

    ghost can_ask = { λ t. A.can_ask t.answer.now };

    ghost text = { λ t. A.text t.answer.now };

    fn write<R: Threads + Sync, K: Sink>(
        &self,
        rt: &R,
        alloc: Global,
        closed: &Closed<'_>,
        sink: &mut K,
    ) -> Result<A::End, Fault> {
        let (end, text) = self.answer.text(rt, alloc, closed)?;
        push_all(sink, &text)?;
        Ok(end)
    }
}

/// What is read off the order of a feed alone: nothing is executed for it.
pub trait OrderAnswer {
    /// How an answer ends: what the caller needs to know of it beside its text.
    type End: Copy;

    // Whether it can be asked for.
    ghost can_ask: { Self → Type 0 };

    // Which texts, with which end, answer it of a feed.
    ghost text: { Self → FeedValue → Self.End → List ℕ → Type 0 };

    /// Whether nothing is done after it, as where a program ends. What was read of the feed then stays in memory: the end of
    /// the process gives it back at once.
    fn is_last(&self) -> bool {
        false
    }

    /// The answer of a feed that ended.
    fn text(
        &self,
        alloc: Global,
        order: &ClosedOrder<'_>,
    ) -> Result<(Self::End, Vec<u8>), AllocError>
        requires ask { can_ask self.now }
        requires closed { (feed : FeedValue) × IsOrderMadeOf (order_value order.now) feed }
        ensures { IfOk result (λ r. (feed : FeedValue) → IsOrderMadeOf (order_value order.now) feed
            → text self.now feed r.0 r.1.items) };
}

/// What is read off the frames of a feed, whether something stops it or not: no order is found for it.
pub trait FrameAnswer {
    /// How an answer ends: what the caller needs to know of it beside its text.
    type End: Copy;

    // Whether it can be asked for.
    ghost can_ask: { Self → Type 0 };

    // Which texts, with which end, answer it of a feed.
    ghost text: { Self → FeedValue → Self.End → List ℕ → Type 0 };

    /// The answer of a feed that ended.
    fn text(&self, alloc: Global, intake: &Intake) -> Result<(Self::End, Vec<u8>), AllocError>
        requires ask { can_ask self.now }
        requires taken { (feed : FeedValue) × IsTakenOf intake.now feed }
        ensures { IfOk result (λ r. (feed : FeedValue) → IsTakenOf intake.now feed
            → text self.now feed r.0 r.1.items) };
}
