//! Certificates that are offered by hand, and many short lists of drawn ones beside plain slow bodies. Few rounds, authors
//! and ids are drawn, so that many of them meet and ids collide.

use crate::certs::{Parts, header_of, place};
use anyhow::Result;
use bk_cert::SharedCert;
use bk_digest::Digest32;
use bk_evidence::{Evidence, Held, Offer};
use bk_index::HashKey;
use bk_trial_kit::Tally;
use std::alloc::Global;

/// A certificate of one batch under an id.
#[derive(Clone, Copy)]
pub(crate) struct Offered {
    pub(crate) round: u32,
    pub(crate) author: u8,
    pub(crate) batch: u8,
    pub(crate) id: u8,
}

// What an offer returns.
#[derive(Clone, Copy)]
enum Answer {
    New,
    Repeat,
    Twin(u8),
    Collision,
}

// A round, an author, and two ids.
type Twins = (u32, u8, u8, u8);

// A round, an author, a batch and an id, what their offer returns, and the evidence and the collision after it.
type Step = ((u32, u8, u8, u8), Answer, Option<Twins>, Option<u8>);

/// The id that is written as this byte.
pub(crate) fn id_of(byte: u8) -> Digest32 {
    Digest32::new([byte; 32])
}

fn offer_of(answer: Answer) -> Offer {
    match answer {
        Answer::New => Offer::New,
        Answer::Repeat => Offer::Repeat,
        Answer::Twin(id) => Offer::Twin(id_of(id)),
        Answer::Collision => Offer::Collision,
    }
}

fn evidence_of(twins: Option<Twins>) -> Option<Evidence> {
    let (round, author, first, second) = twins?;
    Some(Evidence {
        round,
        author,
        first: id_of(first),
        second: id_of(second),
    })
}

fn cert_of(alloc: Global, offered: Offered) -> Result<SharedCert> {
    let batches = [id_of(offered.batch)];
    let parts = Parts {
        at: place(offered.round, offered.author),
        batches: &batches,
        parents: &[],
    };
    let header = header_of(alloc, parts)?;
    Ok(SharedCert::new(alloc, id_of(offered.id), header)?)
}

fn put(alloc: Global, held: &mut Held, offered: Offered) -> Result<Offer> {
    let cert = cert_of(alloc, offered)?;
    Ok(held.offer(cert)?)
}

// ---- by hand

const TWO_EQUIVOCATIONS: &[Step] = &[
    ((2, 1, 0, 7), Answer::New, None, None),
    ((2, 1, 1, 5), Answer::Twin(7), Some((2, 1, 5, 7)), None),
    ((1, 3, 0, 8), Answer::New, Some((2, 1, 5, 7)), None),
    ((1, 3, 1, 9), Answer::Twin(8), Some((1, 3, 8, 9)), None),
    ((2, 1, 1, 5), Answer::Repeat, Some((1, 3, 8, 9)), None),
];

const THREE_HEADERS_UNDER_ONE_ID: &[Step] = &[
    ((2, 1, 0, 7), Answer::New, None, None),
    ((3, 1, 0, 7), Answer::Collision, None, Some(7)),
    ((4, 1, 0, 7), Answer::Collision, None, Some(7)),
    ((3, 1, 0, 7), Answer::Repeat, None, Some(7)),
    ((4, 1, 1, 3), Answer::Twin(7), Some((4, 1, 3, 7)), Some(7)),
    ((5, 1, 1, 3), Answer::Collision, Some((4, 1, 3, 7)), Some(3)),
];

fn is_answered(alloc: Global, held: &mut Held, step: Step) -> Result<bool> {
    let ((round, author, batch, id), answer, twins, collision) = step;
    let offered = Offered {
        round,
        author,
        batch,
        id,
    };
    let found = put(alloc, held, offered)?;
    Ok(
        found == offer_of(answer)
            && held.evidence() == evidence_of(twins)
            && held.collision() == collision.map(id_of),
    )
}

fn try_steps<R>(rt: &R, what: &str, held: &mut Held, steps: &[Step], tally: &mut Tally)
where
    R: AllocGlobal + Eprint,
{
    for step in steps {
        tally.judge(rt, what, is_answered(rt.alloc(), held, *step));
    }
}

fn try_list<R>(rt: &R, what: &str, steps: &[Step], tally: &mut Tally)
where
    R: AllocGlobal + Eprint,
{
    let mut held = Held::new(rt.alloc(), 4, HashKey::fixed());
    try_steps(rt, what, &mut held, steps, tally);
}

// ---- plain slow bodies

fn have_same_header(one: &Offered, other: &Offered) -> bool {
    one.round == other.round && one.author == other.author && one.batch == other.batch
}

// The lesser of the id that is known, if one is, and another one.
fn lesser_id(known: Option<u8>, id: u8) -> u8 {
    match known {
        Some(other) if other < id => other,
        _ => id,
    }
}

// What an offer returns, by going over all that is held.
fn slow_answer(held: &[Offered], offered: &Offered) -> Answer {
    let mut is_known = false;
    let mut least: Option<u8> = None;
    for other in held {
        if other.id == offered.id && have_same_header(other, offered) {
            return Answer::Repeat;
        }
        is_known = is_known || other.id == offered.id;
        if other.round == offered.round && other.author == offered.author {
            least = Some(lesser_id(least, other.id));
        }
    }
    match least {
        _ if is_known => Answer::Collision,
        None => Answer::New,
        Some(id) => Answer::Twin(id),
    }
}

// The lesser of the twins that are known, if any are, and others.
fn lesser_twins(known: Option<Twins>, twins: Twins) -> Twins {
    match known {
        Some(other) if other < twins => other,
        _ => twins,
    }
}

// The least twins, by going over all pairs.
fn slow_evidence(held: &[Offered]) -> Option<Twins> {
    let mut least: Option<Twins> = None;
    for one in held {
        for other in held {
            if one.round == other.round && one.author == other.author && one.id < other.id {
                least = Some(lesser_twins(least, (one.round, one.author, one.id, other.id)));
            }
        }
    }
    least
}

/// The least id of two headers, by going over all pairs.
pub(crate) fn slow_collision(held: &[Offered]) -> Option<u8> {
    let mut least: Option<u8> = None;
    for one in held {
        for other in held {
            if one.id == other.id && !have_same_header(one, other) {
                least = Some(lesser_id(least, one.id));
            }
        }
    }
    least
}

// ---- drawn certificates

/// The next of a fixed sequence.
pub(crate) fn next(seed: &mut u32) -> Offered {
    *seed = seed.wrapping_mul(1_664_525).wrapping_add(1_013_904_223);
    let bits = *seed / 65_536;
    Offered {
        round: 1 + bits % 2,
        author: (bits / 2 % 3) as u8,
        batch: (bits / 8 % 2) as u8,
        id: (bits / 16 % 6) as u8,
    }
}

// What was offered, in one table and in turn in two.
#[derive(Drop)]
struct Tables {
    all: Vec<Offered>,
    held: Held,
    even: Held,
    odd: Held,
}

// Whether one table finds what the slow bodies find.
fn is_as_slow(held: &Held, twins: Option<Twins>, collision: Option<u8>) -> bool {
    held.evidence() == evidence_of(twins) && held.collision() == collision.map(id_of)
}

// Whether two tables find it together.
fn are_as_slow(
    one: &Held,
    other: &Held,
    twins: Option<Twins>,
    collision: Option<u8>,
) -> Result<bool> {
    let evidence = one.evidence_with(other)?;
    let collides = other.collision_with(one)?;
    let both = one.together_with(other)?;
    Ok(
        evidence == evidence_of(twins)
            && collides == collision.map(id_of)
            && both.evidence == evidence
            && both.collision == collides,
    )
}

fn put_in_turn(alloc: Global, tables: &mut Tables, offered: Offered) -> Result<()> {
    let _answer = if tables.all.len() % 2 == 0 {
        put(alloc, &mut tables.even, offered)?
    } else {
        put(alloc, &mut tables.odd, offered)?
    };
    tables.all.push(offered)?;
    Ok(())
}

// Offers a certificate to the one table and to one of the two.
fn is_offered(alloc: Global, tables: &mut Tables, offered: Offered) -> Result<bool> {
    let answer = slow_answer(&tables.all, &offered);
    let found = put(alloc, &mut tables.held, offered)?;
    put_in_turn(alloc, tables, offered)?;
    let twins = slow_evidence(&tables.all);
    let collision = slow_collision(&tables.all);
    if found != offer_of(answer) || !is_as_slow(&tables.held, twins, collision) {
        return Ok(false);
    }
    are_as_slow(&tables.even, &tables.odd, twins, collision)
}

fn are_offered(alloc: Global, tables: &mut Tables, seed: &mut u32) -> Result<bool> {
    let mut are_right = true;
    for _ in 0..12u32 {
        are_right = is_offered(alloc, tables, next(seed))? && are_right;
    }
    Ok(are_right)
}

// Offers twelve certificates.
fn are_twelve_right(alloc: Global, seed: &mut u32) -> Result<bool> {
    let mut tables = Tables {
        all: Vec::new(alloc),
        held: Held::new(alloc, 4, HashKey::fixed()),
        even: Held::new(alloc, 4, HashKey::fixed()),
        odd: Held::new(alloc, 4, HashKey::fixed()),
    };
    are_offered(alloc, &mut tables, seed)
}

/// Offers of certificates.
pub(crate) fn try_offers<R>(rt: &R, tally: &mut Tally)
where
    R: AllocGlobal + Eprint,
{
    try_list(rt, "two equivocations", TWO_EQUIVOCATIONS, tally);
    try_list(
        rt,
        "three headers under one id",
        THREE_HEADERS_UNDER_ONE_ID,
        tally,
    );
    let mut seed = 1;
    for _ in 0..300u32 {
        let are_right = are_twelve_right(rt.alloc(), &mut seed);
        tally.judge(rt, "twelve certificates", are_right);
    }
}
