//! Followers that give a fault.

use crate::ended::finished;
use bk_follow::Follower;
use bk_pool::Open;
use bk_results::Fault;
use std::sync::Wait;
use std::thread::Threads;

/// Whether a Follower refuses a piece with this fault.
pub(crate) fn refuses<R>(rt: &R, follower: &mut Follower, piece: &[u8], fault: &Fault) -> bool
where
    R: Threads + Sync,
{
    follower.feed(rt, piece).err() == Some(*fault)
}

/// Whether its feed, if it ends here, has this fault, and nothing is written.
pub(crate) fn ends_in_fault<R>(rt: &R, follower: &mut Follower, fault: &Fault) -> bool
where
    R: AllocGlobal + Threads + Wait + Sync,
{
    let ended = finished(rt, follower);
    ended.is_fault(fault)
}

/// Whether nothing is settled, with this fault.
pub(crate) fn settles_nothing<R>(rt: &R, follower: &mut Follower, fault: &Fault) -> bool
where
    R: AllocGlobal + Threads + Wait + Sync,
{
    follower.settle(rt, &Open).err() == Some(*fault)
        && follower.settle_order().err() == Some(*fault)
}

// Whether nothing is found.
fn finds_nothing<R>(rt: &R, follower: &mut Follower, fault: &Fault) -> bool
where
    R: AllocGlobal + Threads + Wait + Sync,
{
    follower.account(1).err() == Some(*fault)
        && follower.receipt(0).err() == Some(*fault)
        && follower.prove(rt, 2).err() == Some(*fault)
}

/// Whether every call but `feed` gives this fault, and nothing is written.
pub(crate) fn is_stopped<R>(rt: &R, follower: &mut Follower, fault: &Fault) -> bool
where
    R: AllocGlobal + Threads + Wait + Sync,
{
    ends_in_fault(rt, follower, fault)
        && settles_nothing(rt, follower, fault)
        && finds_nothing(rt, follower, fault)
}

// Whether nothing is left of what came before.
fn holds_nothing(follower: &Follower) -> bool {
    let order = follower.last_order();
    follower.opening().is_empty()
        && order.anchors.is_empty()
        && order.certs.is_empty()
        && follower.closed().is_none()
        && follower.offset() == 0
}

// Whether every call gives this fault.
fn is_refused_once<R>(rt: &R, follower: &mut Follower, fault: &Fault) -> bool
where
    R: AllocGlobal + Threads + Wait + Sync,
{
    follower.fault() == Some(*fault)
        && holds_nothing(follower)
        && refuses(rt, follower, b"", fault)
        && is_stopped(rt, follower, fault)
        && refuses(rt, follower, b"BKF1", fault)
}

/// Whether every call gives this fault, however often.
pub(crate) fn is_refused<R>(rt: &R, follower: &mut Follower, fault: &Fault) -> bool
where
    R: AllocGlobal + Threads + Wait + Sync,
{
    is_refused_once(rt, follower, fault) && is_refused_once(rt, follower, fault)
}
