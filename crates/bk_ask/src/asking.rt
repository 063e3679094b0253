ghost use Rattle.std.specs.Prelude.{IfOk, IfErr};
ghost use Rattle.bk_answer.specs.Answers.{AnswerFailsBy, IsAnswered};
ghost use Rattle.bk_answer.specs.Flaws.{judged_text};
ghost use Rattle.bk_frames.specs.Device.{CanBeUsed};
ghost use Rattle.bk_results.specs.Devices.{devices};
ghost use Rattle.bk_ask.specs.Asking.{IsRepliedOf, executes};

use crate::ordered::view_of;
use crate::replied::Replied;
use crate::replying::Executed;
use bk_answer::{AtOnce, Ended, Judged};
use bk_follow::{Settings, answer_by_ledger, answer_by_order};
use bk_frames::{Sink, Source};
use bk_pool::Gate;
use bk_results::{Fault, Query};
use std::alloc::Global;
use std::sync::Wait;
use std::thread::Threads;

/// Reads a feed and writes the text of the reply to a query: the `anchor` and `cert` lines of the order, or a line for
/// the anchor of each odd round; or, after executing the batches of the order, the
/// line of an account or of a transaction, the text of a proof, the verdict on a digest of the state, `state good`, or
/// `state bad` and the `state` line of the right one, or the statement of an account.
///
/// Where the order stops at a batch that the feed does not hold, the reply is of what comes before it, and the digest of
/// that batch comes with it. The whole feed is read before anything is written. With `Absent`, and with every fault but
/// `Write`, nothing is written.
///
/// Where `strict` is set, what keeps the feed from counting whole comes with it, and is found before anything is written.
pub fn ask<R: Threads + Wait + Sync, S: Source, K: Sink, G: Gate + Sync>(
    rt: &R,
    alloc: Global,
    source: &mut S,
    sink: &mut K,
    query: Query,
    settings: Settings,
    gate: &G,
    strict: bool,
) -> Result<Ended<Replied>, Fault>
    requires source { CanBeUsed (S.state source.old) }
    requires sink { CanBeUsed (K.state sink.old) }
    ensures answer { IfOk result (λ ended. IsAnswered (judged_text strict (IsRepliedOf query)) ended
        (devices (S.state source.old) (K.state sink.old))
        (devices (S.state source.new) (K.state sink.new))) }
    ensures fault { IfErr result (λ f. AnswerFailsBy (judged_text strict (IsRepliedOf query)) (executes query) f
        (devices (S.state source.old) (K.state sink.old))
        (devices (S.state source.new) (K.state sink.new))) }
{
    match view_of(&query) {
        Some(view) => {
            let asked = Judged {
                answer: &view,
                strict,
                last: false,
            };
            answer_by_order(rt, alloc, settings.key, source, sink, &asked)
        }
        None => {
            let asked = Judged {
                answer: &AtOnce {
                    answer: &Executed { query },
                },
                strict,
                last: false,
            };
            answer_by_ledger(rt, alloc, source, sink, settings, gate, &asked)
        }
    }
}
