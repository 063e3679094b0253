//! What is held of the frames, and the certificates of it by round.

ghost use Rattle.std.specs.Prelude.{◌≡◌, ◌++◌, ◌∷◌, ◌+◌, ◌<◌, ◌^◌, [], List, ℕ, None, OnOk, IfOk, length};
ghost use Rattle.bk_committee.specs.Payload.{CommitteeValue, sizes_of};
ghost use Rattle.bk_base.specs.Feed.{frame_of};
ghost use Rattle.bk_certcheck.specs.Frames.{IsFound};
ghost use Rattle.bk_certcheck.specs.Verdicts.{IsGood};
ghost use Rattle.bk_certcheck.specs.declared.verdict.Verdict.TheVariants as verdict;
ghost use Rattle.bk_rounds.specs.Rounds.{rounds_with};
ghost use Rattle.bk_commit.specs.Growth.{IsPrefix, IsPartOf};
ghost use Rattle.bk_evidence.specs.Laws.{HaveSame};
ghost use Rattle.bk_evidence.specs.Batches.{batch_with};
ghost use Rattle.bk_order.specs.Intake.{IsKeptOf};
ghost use Rattle.bk_order.specs.private.Tallies.{IsNewDigest, IsNewId};
ghost use Rattle.bk_order.specs.private.Joined.{IsJoined, KeepsFrames, KeepsVerdict, kept_in};

use crate::judging::JudgedFrames;
use crate::reject::Reject;
use crate::tally::{Count, Tally, one_more};
use bk_base::Kind;
use bk_cert::SharedCert;
use bk_certcheck::{Checked, Found, Rule};
use bk_committee::Committee;
use bk_digest::Digest32;
use bk_evidence::{BatchOffer, Batches, Held, Offer};
use bk_index::HashKey;
use bk_rounds::Rounds;
use std::alloc::{AllocError, Global};

/// What is held of the frames so far.
#[derive(Drop)]
pub(crate) struct Table {
    pub next: u64,
    pub held: Held,
    pub batches: Batches,
    pub rejected: Vec<Reject>,
    pub tally: Tally,
    pub rounds: Rounds,
}

/// Nothing is held.
pub(crate) fn empty_table(
    alloc: Global,
    committee: &Committee,
    key: HashKey,
) -> Result<Table, AllocError>
    ensures kept { IfOk result (λ t. IsKeptOf committee.now [] (kept_in t)) }
    ensures rounds { IfOk result (λ t. t.rounds ≡ rounds_with (sizes_of committee.now) []) }
{
    let rounds = Rounds::new(alloc, committee, key)?;
    Ok(Table {
        next: 2,
        held: Held::new(alloc, rounds.members(), key),
        batches: Batches::new(alloc, key),
        rejected: Vec::new(alloc),
        tally: Tally {
            certs: 0,
            good: Count { all: 0, names: 0 },
            batches: Count { all: 0, names: 0 },
        },
        rounds,
    })
}

// Holds a good certificate, and adds it to its round where its id and its place are new. Returns whether its id is new.
fn hold(
    alloc: Global,
    committee: &Committee,
    held: &mut Held,
    rounds: &mut Rounds,
    good: Checked,
) -> Result<bool, AllocError>
    requires joined { IsJoined committee.now held.old rounds.old }
    requires good { (bytes : List ℕ) × IsGood committee.now bytes good }
    ensures new { IfOk result (IsNewId held.old good.id) }
    ensures joined { OnOk result (IsJoined committee.now held.new rounds.new) }
    ensures held { OnOk result (HaveSame held.new (held.old ++ good ∷ [])) }
    ensures rounds { OnOk result (IsPartOf rounds.old.held rounds.new.held) }
{
    // The number of members also says that it is 1 to 128.
    let _ = committee.n();
    let id = good.id();
    let cert = SharedCert::new(alloc, id, good.into_header())?;
    let shared = cert.share(alloc)?;
    match held.offer(cert)? {
        Offer::New => {
            rounds.add(shared)?;
            Ok(true)
        }
        Offer::Twin(_) => Ok(true),
        Offer::Repeat | Offer::Collision => Ok(false),
    }
}

// Keeps a certificate that breaks no rule.
fn keep_good(
    alloc: Global,
    committee: &Committee,
    table: &mut Table,
    good: Checked,
) -> Result<(), AllocError>
    requires joined { IsJoined committee.now table.old.held table.old.rounds }
    requires judged { (bytes : List ℕ) × IsGood committee.now bytes good }
    ensures { OnOk result
        (KeepsVerdict committee.now None (verdict.Good good) table.old table.new) }
{
    let new = hold(alloc, committee, &mut table.held, &mut table.rounds, good)?;
    table.tally.certs = one_more(table.tally.certs);
    table.tally.good = table.tally.good.with(new);
    Ok(())
}

// Keeps that the certificate of the frame with the next number breaks this rule.
fn keep_broken(table: &mut Table, rule: Rule, id: Option<Digest32>) -> Result<(), AllocError>
    ensures { OnOk result ((k : CommitteeValue) → IsJoined k table.old.held table.old.rounds
        → KeepsVerdict k id (verdict.Broken rule) table.old table.new) }
{
    table.rejected.push(Reject {
        frame: table.next,
        rule,
        id,
    })?;
    table.tally.certs = one_more(table.tally.certs);
    Ok(())
}

// Keeps a batch. Returns whether its digest is new.
fn keep_batch(batches: &mut Batches, digest: Digest32, payload: Vec<u8>) -> Result<bool, AllocError>
    ensures new { IfOk result (IsNewDigest batches.old digest) }
    ensures same { OnOk result (HaveSame batches.new
        (batches.old ++ batch_with digest payload.items ∷ [])) }
    ensures begins { OnOk result (IsPrefix batches.old batches.new) }
{
    match batches.offer(digest, payload)? {
        BatchOffer::New => Ok(true),
        BatchOffer::Repeat | BatchOffer::Collision => Ok(false),
    }
}

// Keeps a frame as it was found to be.
fn keep(
    alloc: Global,
    committee: &Committee,
    table: &mut Table,
    frame: (Kind, Vec<u8>),
    found: Found,
) -> Result<(), AllocError>
    requires joined { IsJoined committee.now table.old.held table.old.rounds }
    requires found { IsFound committee.now (frame_of frame.0 frame.1.items) found }
    requires room { table.old.next + 1 < 2 ^ 64 }
    ensures { OnOk result (KeepsFrames committee.now (frame_of frame.0 frame.1.items ∷ [])
        table.old table.new) }
{
    match found {
        Found::Good(good) => keep_good(alloc, committee, table, good)?,
        Found::Broken(rule, id) => keep_broken(table, rule, id)?,
        Found::Batch(digest) => {
            let new = keep_batch(&mut table.batches, digest, frame.1)?;
            table.tally.batches = table.tally.batches.with(new);
        }
        Found::Other => {}
    }
    table.next += 1;
    Ok(())
}

/// Keeps the frames as they were judged.
pub(crate) fn keep_all(
    alloc: Global,
    committee: &Committee,
    table: &mut Table,
    judged: JudgedFrames,
) -> Result<(), AllocError>
    requires mine { judged.committee ≡ committee.now }
    requires joined { IsJoined committee.now table.old.held table.old.rounds }
    requires room { table.old.next + length judged.frames < 2 ^ 64 }
    ensures { OnOk result (KeepsFrames committee.now judged.frames table.old table.new) }
{
    let JudgedFrames {
        committee: _,
        frames,
        found,
    } = judged;
    let mut left = found.into_iter();
    for frame in frames {
        let Some(one) = left.next() else {
            unreachable!();
        };
        keep(alloc, committee, table, frame, one)?;
    }
    Ok(())
}
