//! Batches that are offered by hand, and many short lists of drawn ones beside a plain slow body.

use crate::offers::{Offered, id_of, next, slow_collision};
use anyhow::Result;
use bk_evidence::{BatchOffer, BatchRef, Batches};
use bk_index::HashKey;
use bk_trial_kit::Tally;
use std::alloc::Global;

// Offers a payload of one byte under a digest.
fn put(alloc: Global, batches: &mut Batches, name: u8, byte: u8) -> Result<BatchOffer> {
    let payload = Vec::from_slice(alloc, &[byte])?;
    Ok(batches.offer(id_of(name), payload)?)
}

// ---- by hand

// A digest, the byte of a payload, and what the offer returns.
const OFFERS: &[(u8, u8, BatchOffer)] = &[
    (7, 1, BatchOffer::New),
    (7, 1, BatchOffer::Repeat),
    (3, 1, BatchOffer::New),
    (7, 2, BatchOffer::Collision),
    (7, 2, BatchOffer::Repeat),
];

fn are_found(batches: &Batches) -> bool {
    batches.collision() == Some(id_of(7))
        && batches.get(&id_of(7)) == Some([1].as_slice())
        && batches.index_of(&id_of(3)) == Some(BatchRef { index: 1 })
        && batches.index_of(&id_of(7)) == Some(BatchRef { index: 0 })
        && batches.index_of(&id_of(8)).is_none()
}

fn answers(
    alloc: Global,
    batches: &mut Batches,
    (name, byte, answer): &(u8, u8, BatchOffer),
) -> Result<bool> {
    Ok(put(alloc, batches, *name, *byte)? == *answer)
}

fn try_list<R>(rt: &R, batches: &mut Batches, tally: &mut Tally)
where
    R: AllocGlobal + Eprint,
{
    for offer in OFFERS {
        let is_right = answers(rt.alloc(), batches, offer);
        tally.judge(rt, "an offer of a batch", is_right);
    }
    tally.note(rt, "two payloads under a digest", are_found(batches));
}

fn try_by_hand<R>(rt: &R, tally: &mut Tally)
where
    R: AllocGlobal + Eprint,
{
    let mut batches = Batches::new(rt.alloc(), HashKey::fixed());
    try_list(rt, &mut batches, tally);
}

// ---- drawn batches

// What was offered, in turn in two tables. A batch is as a certificate of one round and author: its payload is the header.
#[derive(Drop)]
struct Tables {
    all: Vec<Offered>,
    even: Batches,
    odd: Batches,
}

fn put_in_turn(alloc: Global, tables: &mut Tables, drawn: Offered) -> Result<()> {
    let _answer = if tables.all.len() % 2 == 0 {
        put(alloc, &mut tables.even, drawn.id, drawn.batch)?
    } else {
        put(alloc, &mut tables.odd, drawn.id, drawn.batch)?
    };
    tables.all.push(Offered {
        round: 1,
        author: 0,
        ..drawn
    })?;
    Ok(())
}

fn is_offered(alloc: Global, tables: &mut Tables, drawn: Offered) -> Result<bool> {
    put_in_turn(alloc, tables, drawn)?;
    let collision = tables.odd.collision_with(&tables.even)?;
    Ok(collision == slow_collision(&tables.all).map(id_of))
}

fn are_offered(alloc: Global, tables: &mut Tables, seed: &mut u32) -> Result<bool> {
    let mut are_right = true;
    for _ in 0..8u32 {
        are_right = is_offered(alloc, tables, next(seed))? && are_right;
    }
    Ok(are_right)
}

// Offers eight batches.
fn are_eight_right(alloc: Global, seed: &mut u32) -> Result<bool> {
    let mut tables = Tables {
        all: Vec::new(alloc),
        even: Batches::new(alloc, HashKey::fixed()),
        odd: Batches::new(alloc, HashKey::fixed()),
    };
    are_offered(alloc, &mut tables, seed)
}

/// Offers of batches.
pub(crate) fn try_batch_offers<R>(rt: &R, tally: &mut Tally)
where
    R: AllocGlobal + Eprint,
{
    try_by_hand(rt, tally);
    let mut seed = 1;
    for _ in 0..300u32 {
        let are_right = are_eight_right(rt.alloc(), &mut seed);
        tally.judge(rt, "eight batches", are_right);
    }
}
