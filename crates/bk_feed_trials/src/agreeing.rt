//! Two Followers, compared.

ghost use Rattle.std.specs.Prelude.{◌≡◌, None};

use crate::ended::settings;
use crate::feeds::{FOUR_ROUNDS, THREE_ROUNDS};
use crate::made::made;
use anyhow::Result;
use bk_follow::Follower;
use bk_pool::Open;
use bk_results::Agreed;
use bk_trial_kit::Tally;
use std::sync::Wait;
use std::thread::Threads;

fn is_one(one: &Follower, other: &Follower) -> bool
    requires one { one.now.fault ≡ None }
    requires other { other.now.fault ≡ None }
{
    let agreed = Agreed {
        certs: 1,
        places: 1,
    };
    one.compare(other).ok() == Some(agreed)
}

// Whether two Followers agree so far, however often they are compared.
fn agree(one: &Follower, other: &Follower) -> bool
    requires one { one.now.fault ≡ None }
    requires other { other.now.fault ≡ None }
{
    is_one(one, other) && is_one(other, one) && is_one(one, other)
}

// Whether a Follower of four rounds and one of three do.
fn follow_and_agree<R>(
    rt: &R,
    (one, other): (&mut Follower, &mut Follower),
    (long, short): (&[u8], &[u8]),
) -> Result<bool>
where
    R: AllocGlobal + Threads + Wait + Sync,
{
    one.feed(rt, long)?;
    other.feed(rt, short)?;
    let first = one.settle(rt, &Open)?;
    let second = other.settle(rt, &Open)?;
    Ok(first == 1 && second == 1 && agree(one, other))
}

// Each Follower is owned by a function of its own.
fn one_agrees<R>(rt: &R, other: &mut Follower, feeds: (&[u8], &[u8])) -> Result<bool>
where
    R: AllocGlobal + Threads + Wait + Sync,
{
    let mut one = Follower::new(rt.alloc(), settings(2));
    let is_right = follow_and_agree(rt, (&mut one, other), feeds);
    one.discard();
    is_right
}

fn both_agree<R>(rt: &R, feeds: (&[u8], &[u8])) -> Result<bool>
where
    R: AllocGlobal + Threads + Wait + Sync,
{
    let mut other = Follower::new(rt.alloc(), settings(1));
    let is_right = one_agrees(rt, &mut other, feeds);
    other.discard();
    is_right
}

fn followers_agree<R>(rt: &R) -> Result<bool>
where
    R: AllocGlobal + Threads + Wait + Sync,
{
    let long = made(rt.alloc(), FOUR_ROUNDS)?;
    let short = made(rt.alloc(), THREE_ROUNDS)?;
    both_agree(rt, (&long, &short))
}

/// Followers that agree.
pub(crate) fn try_agreeing<R>(rt: &R, tally: &mut Tally)
where
    R: AllocGlobal + Eprint + Threads + Wait + Sync,
{
    tally.judge(rt, "Followers that agree", followers_agree(rt));
}
