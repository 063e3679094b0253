//! A feed that is followed in pieces.

ghost use Rattle.bk_frames.specs.Device.{CanBeUsed};

use crate::outcome::Outcome;
use bk_base::Workers;
use bk_cli::{Exit, JobFault, report};
use bk_follow::{Follower, Settings};
use bk_frames::{Counted, Sink};
use bk_order::HashKey;
use bk_pool::Open;
use bk_results::{Fault, Status};
use std::alloc::Global;
use std::sync::Wait;
use std::thread::Threads;
use std::time::Clock;

/// In which pieces a feed comes, and whether each of them is settled.
#[derive(Clone, Copy)]
pub(crate) struct Pieces {
    pub(crate) size: usize,
    pub(crate) settles: bool,
}

// Settles what came so far. A stop is no fault yet: a later piece is taken all the same.
fn settle<R>(rt: &R, follower: &mut Follower) -> Result<(), Fault>
where
    R: AllocGlobal + Clock + Threads + Wait + Sync,
{
    match follower.settle(rt, &Open) {
        Ok(_) | Err(Fault::Collision { .. }) | Err(Fault::Equivocation { .. }) => Ok(()),
        Err(fault) => Err(fault),
    }
}

// Feeds the pieces, and finishes.
fn feed_all<R, K: Sink>(
    rt: &R,
    follower: &mut Follower,
    feed: &[u8],
    pieces: Pieces,
    out: &mut K,
) -> Result<Status, Fault>
where
    R: AllocGlobal + Clock + Threads + Wait + Sync,
    requires sound { CanBeUsed (K.state out.old) }
{
    for piece in feed.chunks(pieces.size.max(1)) {
        follower.feed(rt, piece)?;
        if pieces.settles {
            settle(rt, follower)?;
        }
    }
    follower.finish(rt, &Open, out)
}

// The same from the first byte on. The Follower is owned here alone: each way out of the function that owns it lets it go.
fn follow<R, K: Sink>(rt: &R, feed: &[u8], pieces: Pieces, out: &mut K) -> Result<Status, Fault>
where
    R: AllocGlobal + Clock + Threads + Wait + Sync,
    requires sound { CanBeUsed (K.state out.old) }
{
    let settings = Settings {
        workers: Workers::two(),
        key: HashKey::fixed(),
    };
    let mut follower = Follower::new(rt.alloc(), settings);
    feed_all(rt, &mut follower, feed, pieces, out)
}

/// What `run` leaves of a feed that comes in these pieces.
pub(crate) fn followed<R>(rt: &R, feed: &[u8], pieces: Pieces) -> Outcome
where
    R: AllocGlobal + Clock + Threads + Wait + Sync,
{
    let alloc: Global = rt.alloc();
    let mut out = Counted::new(Vec::new(alloc));
    let mut err = Counted::new(Vec::new(alloc));
    let exit = match follow(rt, feed, pieces, &mut out) {
        Ok(status) => Exit::at(status),
        Err(fault) => {
            let fault = JobFault::Replay(fault);
            report(&fault, &mut err);
            Exit::after(&fault)
        }
    };
    Outcome {
        status: exit.number(),
        out: out.into_inner(),
        err: err.into_inner(),
    }
}
