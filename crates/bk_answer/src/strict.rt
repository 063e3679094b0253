//! An answer beside which it is found what keeps its feed from counting whole.

ghost use Rattle.std.specs.Prelude.{IfOk};
ghost use Rattle.bk_base.specs.Feed.{FeedValue};
ghost use Rattle.bk_answer.specs.Answers.{IsOrderMadeOf};
ghost use Rattle.bk_answer.specs.Flaws.{IsFlawIf, IsFlawIn, judged_text};
ghost use Rattle.bk_answer.specs.Values.{order_value};

use crate::answer::{Answer, OrderAnswer};
use crate::closed::{Closed, ClosedOrder};
use bk_frames::Sink;
use bk_results::{Fault, Flaw};
use std::alloc::{AllocError, Global};
use std::thread::Threads;

/// How a judged answer ends.
#[derive(Clone, Copy)]
pub struct Ended<E> {
    /// How the answer ends.
    pub end: E,
    /// What keeps the feed from counting whole; `None` where nothing does, and where it was not asked for.
    pub flaw: Option<Flaw>,
}

/// An answer, and whether it is asked for what keeps its feed from counting whole. That is found before anything is
/// written.
#[derive(Clone, Copy)]
pub struct Judged<'a, A> {
    /// The answer.
    pub answer: &'a A,
    /// Whether the feed is judged.
    pub strict: bool,
    /// Whether nothing is done after it.
    pub last: bool,
}

impl<'a> ClosedOrder<'a> {
    /// What keeps the feed from counting whole: the first of a missing batch at which the order stops, frames that break a
    /// rule, certificates that wait, and an order of no certificate. O(n log n) in the certificates that are held.
    pub fn flaw(&self) -> Result<Option<Flaw>, AllocError>
        requires { (feed : FeedValue) × IsOrderMadeOf (order_value self.now) feed }
        ensures { IfOk result (λ found. (feed : FeedValue)
            → IsOrderMadeOf (order_value self.now) feed → IsFlawIn feed found) }
    {
        let waiting = self.waiting()?;
        let intake = self.intake;
        if let Some(missing) = intake.missing() {
            return Ok(Some(Flaw::Missing { digest: *missing }));
        }
        let rejected = intake.rejected().len();
        if rejected > 0 {
            let frames = rejected as u64;
            return Ok(Some(Flaw::Rejected { frames }));
        }
        if waiting.len() > 0 {
            let certs = waiting.len() as u64;
            return Ok(Some(Flaw::Waiting { certs }));
        }
        if intake.order().is_empty() {
            return Ok(Some(Flaw::NothingOrdered));
        }
        Ok(None)
    }

    /// The same where it is asked for.
    pub fn flaw_if(&self, strict: bool) -> Result<Option<Flaw>, AllocError>
        requires { (feed : FeedValue) × IsOrderMadeOf (order_value self.now) feed }
        ensures { IfOk result (λ found. (feed : FeedValue)
            → IsOrderMadeOf (order_value self.now) feed → IsFlawIf strict feed found) }
    {
        if strict { self.flaw() } else { Ok(None) }
    }
}

impl<'a, A: Answer> Answer for Judged<'a, A> {
    type End = Ended<A::End>;

    ghost can_ask = { λ j. A.can_ask j.answer.now };

    ghost text = { λ j. judged_text j.strict (A.text j.answer.now) };

    fn is_last(&self) -> bool {
        self.last
    }

    fn write<R: Threads + Sync, K: Sink>(
        &self,
        rt: &R,
        alloc: Global,
        closed: &Closed<'_>,
        sink: &mut K,
    ) -> Result<Ended<A::End>, Fault> {
        let flaw = closed.order.flaw_if(self.strict)?;
        let end = self.answer.write(rt, alloc, closed, sink)?;
        Ok(Ended { end, flaw })
    }
}

impl<'a, A: OrderAnswer> OrderAnswer for Judged<'a, A> {
    type End = Ended<A::End>;

    ghost can_ask = { λ j. A.can_ask j.answer.now };

    ghost text = { λ j. judged_text j.strict (A.text j.answer.now) };

    fn is_last(&self) -> bool {
        self.last
    }

    fn text(
        &self,
        alloc: Global,
        order: &ClosedOrder<'_>,
    ) -> Result<(Ended<A::End>, Vec<u8>), AllocError> {
        let flaw = order.flaw_if(self.strict)?;
        let (end, text) = self.answer.text(alloc, order)?;
        Ok((Ended { end, flaw }, text))
    }
}
