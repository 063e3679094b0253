//! The parts of `members` and `cert` lines.

ghost use Rattle.std.specs.Prelude.{◌≡◌, ◌<◌, ◌≤◌, map, length, All, IfOk, option_map, unwrap_or, replicate, ◌+◌, ◌*◌};
ghost use Rattle.bk_committee.specs.Payload.{member_size};
ghost use Rattle.bk_script.specs.Judging.{word, in_range, are_weights, weights_listed, parents_of, signers_in, header_in, with_id};
ghost use Rattle.bk_script.specs.Answers.{Answers};

use crate::fault::{ScriptCode, Stop};
use crate::words::{list, numbers};
use bk_base::Version;
use bk_cert::Header;
use bk_digest::Digest32;
use std::alloc::{AllocError, Global};
use std::cmp::Ordering;

/// The word at a place of a line, none past its end.
pub(crate) fn word<'a>(words: &[&'a [u8]], i: usize) -> &'a [u8]
    ensures { result.now ≡ word (map (λ w. w.now) words.now) i }
{
    match words.get(i) {
        Some(word) => *word,
        None => &[],
    }
}

/// The weights that a `members` line lists, if it lists any.
#[tactic(auto, unfolding(crate::specs::Judging::weights_listed))]
pub(crate) fn weights_listed(alloc: Global, words: &[&[u8]]) -> Result<Option<Vec<u64>>, Stop>
    ensures { Answers (option_map (λ v. v.items)) result
        (weights_listed (map (λ w. w.now) words.now)) }
{
    if words.len() != 3 {
        return Ok(None);
    }
    let items = list(alloc, word(words, 2))?;
    Ok(Some(numbers(alloc, &items)?))
}

/// The weights of n members that are listed, each of four bytes and above 0.
pub(crate) fn weights_of(alloc: Global, n: u64, listed: &[u64]) -> Result<Vec<u32>, Stop>
    ensures { Answers (λ weights. weights.items) result
        (in_range (are_weights n listed.now) listed.now) }
{
    if listed.len() as u64 != n {
        return Err(Stop::Code(ScriptCode::Range));
    }
    let mut weights = Vec::new(alloc);
    for weight in listed {
        if *weight == 0 || *weight >= 1 << 32 {
            return Err(Stop::Code(ScriptCode::Range));
        }
        weights.push(*weight as u32)?;
    }
    Ok(weights)
}

/// The weights of n members, 1 each where none are listed.
pub(crate) fn weights_for(alloc: Global, n: u64, listed: Option<Vec<u64>>) -> Result<Vec<u32>, Stop>
    requires { n ≤ 128 }
    ensures { Answers (λ weights. weights.items) result
        (in_range (are_weights n (unwrap_or (option_map (λ v. v.items) listed) (replicate n 1)))
        (unwrap_or (option_map (λ v. v.items) listed) (replicate n 1))) }
{
    match listed {
        Some(listed) => weights_of(alloc, n, &listed),
        None => Ok(vec![in alloc; 1u32; n as usize]?),
    }
}

/// How many bytes a feed of this many members has without accounts and frames after them.
pub(crate) fn members_size(version: Version, n: u64) -> u64
    requires { n ≤ 128 }
    ensures { result ≡ 19 + member_size version * n }
{
    match version {
        Version::One => 19 + 32 * n,
        Version::Two => 19 + 36 * n,
    }
}

// Puts one id more among others in ascending order, unless it is there already.
fn put_id(ids: &mut Vec<Digest32>, id: Digest32) -> Result<(), Stop>
    ensures { Answers (λ _. ids.new.items) result (with_id ids.old.items id) }
{
    for i in 0..ids.len() {
        match id.cmp(&ids[i]) {
            Ordering::Less => return Ok(ids.insert(i, id)?),
            Ordering::Equal => return Err(Stop::Code(ScriptCode::Range)),
            Ordering::Greater => {}
        }
    }
    Ok(ids.push(id)?)
}

/// Parent ids in ascending order: at most 128, none twice.
#[tactic(auto, unfolding(crate::specs::Judging::parents_of))]
pub(crate) fn parents_of(alloc: Global, ids: &[Digest32]) -> Result<Vec<Digest32>, Stop>
    ensures { Answers (λ parents. parents.items) result (parents_of ids.now) }
{
    if ids.len() > 128 {
        return Err(Stop::Code(ScriptCode::Range));
    }
    let mut parents = Vec::new(alloc);
    for id in ids {
        put_id(&mut parents, *id)?;
    }
    Ok(parents)
}

/// Members that a mask has a bit for.
#[tactic(auto, unfolding(crate::specs::Judging::signers_in))]
pub(crate) fn signers_in(alloc: Global, numbers: &[u64]) -> Result<Vec<u8>, Stop>
    ensures members { Answers (λ signers. signers.items) result (signers_in numbers.now) }
    ensures low { IfOk result (λ signers. All (λ signer. signer < 128) signers.items) }
{
    let mut signers = Vec::new(alloc);
    for number in numbers {
        if *number > 127 {
            return Err(Stop::Code(ScriptCode::Range));
        }
        signers.push(*number as u8)?;
    }
    Ok(signers)
}

/// The header of these parts, where its fields can hold them.
#[tactic(auto, unfolding(crate::specs::Judging::header_in))]
pub(crate) fn header_in(
    author: u64,
    round: u64,
    batches: Vec<Digest32>,
    parents: Vec<Digest32>,
) -> Result<Header, ScriptCode>
    ensures { result ≡ header_in author round batches.items parents.items }
{
    if author > 255 || round >= 1 << 32 {
        return Err(ScriptCode::Range);
    }
    match Header::new(author as u8, round as u32, batches, parents) {
        Some(header) => Ok(header),
        None => Err(ScriptCode::Range),
    }
}
