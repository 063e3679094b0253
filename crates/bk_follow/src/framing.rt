//! The frames of a feed that is read to its end, whether something stops it or not, and what is asked of them.

ghost use Rattle.std.specs.Prelude.{◌≡◌, ℕ, List, false, Err, None, Some, IfOk, IfErr, IfSome, OnOk, option_map};
ghost use Rattle.bk_base.specs.Feed.{Frame};
ghost use Rattle.bk_answer.specs.Answers.{AnswerFailsBy, IsAnswered};
ghost use Rattle.bk_answer.specs.Closed.{IsTakenFor};
ghost use Rattle.bk_frames.specs.Device.{CanBeUsed};
ghost use Rattle.bk_results.specs.Devices.{devices};
ghost use Rattle.bk_follow.specs.Finishing.{OfFeed};
ghost use Rattle.bk_follow.specs.Follower.{HasCome};
ghost use Rattle.bk_follow.specs.Queries.{EndsNot};
ghost use Rattle.bk_follow.specs.Stopping.{stops};
ghost use Rattle.bk_follow.specs.private.Answering.{FollowerAnswers, FollowerAnswersNot};

use crate::answering::read;
use crate::fault::Fault;
use crate::follower::Follower;
use crate::settings::alone;
use bk_answer::FrameAnswer;
use bk_frames::{Sink, Source, push_all};
use bk_order::{HashKey, Intake};
use std::alloc::Global;
use std::thread::Threads;

impl Follower {
    /// What was taken of the frames of the feed that ends here, whether something stops it or not. The order in it is
    /// the one that was settled last.
    ///
    /// `Feed` where the feed does not end here.
    pub fn taken(&self) -> Result<&Intake, Fault>
        ensures come { OnOk result ((bytes : List ℕ) × (frames : List Frame) × HasCome bytes frames self.now) }
        ensures taken { IfOk result (λ i. OfFeed self.now (λ feed. IsTakenFor feed i.now)) }
        ensures own { IfOk result (λ i. option_map (λ b. b.taken) self.now.book ≡ Some i.now) }
        ensures again { IfSome self.now.fault (λ f. result ≡ Err f) }
        ensures fault { IfErr result (λ f. self.now.fault ≡ None → EndsNot self.now f) }
    {
        if let Some(fault) = self.fault {
            return Err(fault);
        }
        self.gathered.cutter.end()?;
        let Some(book) = &self.gathered.opened.book else {
            unreachable!()
        };
        Ok(&book.intake)
    }
}

// Writes the answer of the feed that ends here.
fn take_and_answer<K: Sink, A: FrameAnswer>(
    follower: &Follower,
    asked: &A,
    sink: &mut K,
) -> Result<A::End, Fault>
    requires ask { A.can_ask asked.now }
    requires sound { CanBeUsed (K.state sink.old) }
    requires works { follower.now.fault ≡ None }
    ensures out { IfOk result (λ end. FollowerAnswers (A.text asked.now) follower.now end
        (K.state sink.old) (K.state sink.new)) }
    ensures fault { IfErr result (λ f. FollowerAnswersNot (A.text asked.now) false follower.now f
        (K.state sink.old) (K.state sink.new)) }
    ensures unstopped { IfErr result (λ f. stops f ≡ false) }
{
    let intake = follower.taken()?;
    let (end, text) = asked.text(follower.alloc, intake)?;
    push_all(sink, &text)?;
    Ok(end)
}

/// Reads a feed, whether something stops it or not, and writes what is asked of its frames. Nothing is ordered or
/// executed.
///
/// The whole feed is read before anything is written, and with every fault but `Write` nothing is written. `Collision`,
/// `Equivocation` and `Unfinished` do not come.
pub fn answer_by_frames<R: Threads + Sync, S: Source, K: Sink, A: FrameAnswer>(
    rt: &R,
    alloc: Global,
    key: HashKey,
    source: &mut S,
    sink: &mut K,
    asked: &A,
) -> Result<A::End, Fault>
    requires ask { A.can_ask asked.now }
    requires source { CanBeUsed (S.state source.old) }
    requires sink { CanBeUsed (K.state sink.old) }
    ensures answer { IfOk result (λ end. IsAnswered (A.text asked.now) end
        (devices (S.state source.old) (K.state sink.old))
        (devices (S.state source.new) (K.state sink.new))) }
    ensures fault { IfErr result (λ f. AnswerFailsBy (A.text asked.now) false f
        (devices (S.state source.old) (K.state sink.old))
        (devices (S.state source.new) (K.state sink.new))) }
    ensures unstopped { IfErr result (λ f. stops f ≡ false) }
{
    let follower = read(rt, alloc, source, alone(key))?;
    let end = take_and_answer(&follower, asked, sink);
    follower.discard();
    end
}
