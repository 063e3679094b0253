//! What a Follower is asked after each byte of a feed.

use crate::ended::settings;
use crate::feeds::{ONE_COMMIT, PROOF_OPENED, PROOF_PAID, TWO_COMMITS};
use crate::made::made;
use anyhow::Result;
use bk_cert::CertRef;
use bk_follow::{Follower, Order};
use bk_pool::Open;
use bk_rules::{Account, Receipt, Status};
use bk_trial_kit::Tally;
use std::alloc::Global;
use std::sync::Wait;
use std::thread::Threads;

const ANCHORS: [CertRef; 2] = [
    CertRef {
        round: 1,
        author: 0,
    },
    CertRef {
        round: 3,
        author: 0,
    },
];

const CERTS: [CertRef; 3] = [
    CertRef {
        round: 1,
        author: 0,
    },
    CertRef {
        round: 2,
        author: 0,
    },
    CertRef {
        round: 3,
        author: 0,
    },
];

// What is found of account 2 and of place 0, and how many anchors and certificates are ordered.
#[derive(Clone, Copy)]
struct Wanted {
    balance: Option<u64>,
    moved: Option<u64>,
    proof: &'static str,
    anchors: usize,
    certs: usize,
}

const UNOPENED: Wanted = Wanted {
    balance: None,
    moved: None,
    proof: "",
    anchors: 0,
    certs: 0,
};

// What is found after so many bytes of the feed of two commits. It is settled once, with round 2 at 407.
fn wanted_at(end: usize) -> Wanted {
    if end < 99 {
        return UNOPENED;
    }
    if end < 407 {
        return Wanted {
            balance: Some(50),
            proof: PROOF_OPENED,
            ..UNOPENED
        };
    }
    let (anchors, certs) = if end < 625 { (1, 1) } else { (2, 3) };
    Wanted {
        balance: Some(80),
        moved: Some(30),
        proof: PROOF_PAID,
        anchors,
        certs,
    }
}

fn is_order(order: Order<'_>, anchors: usize, certs: usize) -> bool {
    order.anchors == ANCHORS.get(..anchors).unwrap_or(&[])
        && order.certs == CERTS.get(..certs).unwrap_or(&[])
}

// Whether the accounts and receipts are as wanted. There is no account 3 and no place 1.
fn has_values(follower: &Follower, wanted: Wanted) -> Result<bool> {
    let account = wanted.balance.map(|balance| Account { balance, seq: 0 });
    let receipt = wanted.moved.map(|moved| Receipt {
        status: Status::Ok,
        moved,
    });
    Ok(
        follower.account(2)? == account
            && follower.account(3)?.is_none()
            && follower.receipt(0)? == receipt
            && follower.receipt(1)?.is_none(),
    )
}

// Whether the proof of account 2 is as wanted, none for an empty text.
fn has_proof<R>(rt: &R, follower: &mut Follower, wanted: &str) -> Result<bool>
where
    R: AllocGlobal + Threads + Sync,
{
    let alloc: Global = rt.alloc();
    match follower.prove(rt, 2)? {
        Some(proof) => Ok(proof.text(alloc)?.as_slice() == wanted.as_bytes()),
        None => Ok(wanted.is_empty()),
    }
}

// There is none of account 3.
fn has_proofs<R>(rt: &R, follower: &mut Follower, wanted: &str) -> Result<bool>
where
    R: AllocGlobal + Threads + Sync,
{
    Ok(has_proof(rt, follower, wanted)? && follower.prove(rt, 3)?.is_none())
}

// Whether the order is as wanted.
fn has_order(follower: &mut Follower, wanted: Wanted) -> Result<bool> {
    follower.settle_order()?;
    Ok(is_order(follower.last_order(), wanted.anchors, wanted.certs))
}

fn gives<R>(rt: &R, follower: &mut Follower, wanted: Wanted) -> Result<bool>
where
    R: AllocGlobal + Threads + Sync,
{
    Ok(
        has_values(follower, wanted)?
            && has_proofs(rt, follower, wanted.proof)?
            && has_order(follower, wanted)?,
    )
}

// Whether round 2 is ordered before it is settled, and then brings one place.
fn settles_round_two<R>(rt: &R, follower: &mut Follower) -> Result<bool>
where
    R: AllocGlobal + Threads + Wait + Sync,
{
    let ordered = Wanted {
        anchors: 1,
        certs: 1,
        ..wanted_at(406)
    };
    Ok(gives(rt, follower, ordered)? && follower.settle(rt, &Open)? == 1)
}

// Whether all is as wanted after a byte that ends here.
fn gives_after<R>(rt: &R, follower: &mut Follower, byte: &[u8], end: usize) -> Result<bool>
where
    R: AllocGlobal + Threads + Wait + Sync,
{
    follower.feed(rt, byte)?;
    if end == 407 && !settles_round_two(rt, follower)? {
        return Ok(false);
    }
    gives(rt, follower, wanted_at(end))
}

// Whether what is ordered and not settled is one place, by which account 2 pays 5.
fn settles_last<R>(rt: &R, follower: &mut Follower) -> Result<bool>
where
    R: AllocGlobal + Threads + Wait + Sync,
{
    let last = Some(Account {
        balance: 75,
        seq: 1,
    });
    Ok(follower.settle(rt, &Open)? == 1 && follower.account(2)? == last)
}

// Whether all is as wanted after each byte, and account 2 at the end.
fn gives_after_each<R>(rt: &R, follower: &mut Follower, feed: &[u8]) -> Result<bool>
where
    R: AllocGlobal + Threads + Wait + Sync,
{
    if !gives(rt, follower, wanted_at(0))? {
        return Ok(false);
    }
    let mut end = 0usize;
    for byte in feed.chunks(1) {
        end = end.saturating_add(1);
        if !gives_after(rt, follower, byte, end)? {
            return Ok(false);
        }
    }
    Ok(end == 625 && settles_last(rt, follower)?)
}

fn gives_all<R>(rt: &R, script: &str) -> Result<bool>
where
    R: AllocGlobal + Threads + Wait + Sync,
{
    let feed = made(rt.alloc(), script)?;
    let mut follower = Follower::new(rt.alloc(), settings(2));
    let is_right = gives_after_each(rt, &mut follower, &feed);
    follower.discard();
    is_right
}

// ---- orders alone

// Whether one certificate is ordered, and its payment is not executed.
fn is_unexecuted(follower: &mut Follower) -> Result<bool> {
    follower.settle_order()?;
    Ok(
        is_order(follower.last_order(), 1, 1)
            && follower.receipt(0)?.is_none()
            && follower.account(2)?.is_some(),
    )
}

// Whether settling executes one payment, and leaves the order as it was.
fn settles_one<R>(rt: &R, follower: &mut Follower) -> Result<bool>
where
    R: AllocGlobal + Threads + Wait + Sync,
{
    let settled = follower.settle(rt, &Open)?;
    follower.settle_order()?;
    Ok(settled == 1 && is_order(follower.last_order(), 1, 1) && follower.receipt(0)?.is_some())
}

// Whether the order is that of the whole frames so far without any settling, which executes nothing.
fn orders_alone<R>(rt: &R, follower: &mut Follower, feed: &[u8]) -> Result<bool>
where
    R: AllocGlobal + Threads + Wait + Sync,
{
    for byte in feed.chunks(1) {
        follower.settle_order()?;
        if !is_order(follower.last_order(), 0, 0) {
            return Ok(false);
        }
        follower.feed(rt, byte)?;
    }
    Ok(feed.len() == 346 && is_unexecuted(follower)? && settles_one(rt, follower)?)
}

fn orders_without_settling<R>(rt: &R, script: &str) -> Result<bool>
where
    R: AllocGlobal + Threads + Wait + Sync,
{
    let feed = made(rt.alloc(), script)?;
    let mut follower = Follower::new(rt.alloc(), settings(1));
    let is_right = orders_alone(rt, &mut follower, &feed);
    follower.discard();
    is_right
}

/// Accounts, receipts, proofs and orders after each byte.
pub(crate) fn try_between<R>(rt: &R, tally: &mut Tally) -> Result<()>
where
    R: AllocGlobal + Eprint + Threads + Wait + Sync,
{
    let is_right = gives_all(rt, TWO_COMMITS)?;
    tally.note(rt, "questions after each byte", is_right);
    let is_right = orders_without_settling(rt, ONE_COMMIT)?;
    tally.note(rt, "orders without settling", is_right);
    Ok(())
}
