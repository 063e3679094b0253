//! A proof that is good is bad where it is changed in any way.

use crate::devices::{all_few, feed_alone, job_with};
use anyhow::Result;
use bk_cli::Job;
use std::alloc::Global;
use std::sync::Wait;
use std::thread::Threads;
use std::time::Clock;

// The bytes that come in the place of others: of numbers and digests, and those between words.
const BYTES: &[u8] = b"50 \n";

// Roots that are no digest.
const ROOTS: [&str; 2] = ["", "no digest"];

// How many line feeds a text has that is longer than any proof.
const LONG: usize = 70_000;

// Whether a text is checked to this verdict that it is bad.
fn is_bad<R>(rt: &R, job: &Job, text: &[u8]) -> bool
where
    R: AllocGlobal + Clock + Threads + Wait + Sync,
{
    let found = job_with(rt, job, feed_alone(text), all_few(50));
    found.status == 1 && found.out.as_slice() == b"proof bad\n".as_slice() && found.err.is_empty()
}

// Whether a proof is bad with this byte in this place, where it has another one.
fn is_bad_at<R>(rt: &R, job: &Job, proof: &[u8], index: usize, byte: u8) -> Result<bool>
where
    R: AllocGlobal + Clock + Threads + Wait + Sync,
{
    let mut text = Vec::from_slice(rt.alloc(), proof)?;
    if let Some(old) = text.get_mut(index) {
        *old = byte;
    }
    Ok(text.as_slice() == proof || is_bad(rt, job, &text))
}

// Whether a proof is bad with this byte in the place of any other.
fn is_bad_turned<R>(rt: &R, job: &Job, proof: &[u8], byte: u8) -> Result<bool>
where
    R: AllocGlobal + Clock + Threads + Wait + Sync,
{
    for index in 0..proof.len() {
        if !is_bad_at(rt, job, proof, index, byte)? {
            return Ok(false);
        }
    }
    Ok(true)
}

// Whether it is with each of these bytes.
fn is_bad_with<R>(rt: &R, job: &Job, proof: &[u8], bytes: &[u8]) -> Result<bool>
where
    R: AllocGlobal + Clock + Threads + Wait + Sync,
{
    for byte in bytes {
        if !is_bad_turned(rt, job, proof, *byte)? {
            return Ok(false);
        }
    }
    Ok(true)
}

// Whether a proof is bad that is cut short, after any byte.
fn is_bad_cut<R>(rt: &R, job: &Job, proof: &[u8]) -> bool
where
    R: AllocGlobal + Clock + Threads + Wait + Sync,
{
    for length in 0..proof.len() {
        if !is_bad(rt, job, proof.get(..length).unwrap_or(&[])) {
            return false;
        }
    }
    true
}

// Whether a proof is bad that comes twice.
fn is_bad_twice<R>(rt: &R, job: &Job, proof: &[u8]) -> Result<bool>
where
    R: AllocGlobal + Clock + Threads + Wait + Sync,
{
    let mut twice = Vec::from_slice(rt.alloc(), proof)?;
    twice.extend_from_slice(proof)?;
    Ok(is_bad(rt, job, &twice))
}

// Whether a text is bad that is longer than any proof.
fn is_bad_long<R>(rt: &R, job: &Job) -> Result<bool>
where
    R: AllocGlobal + Clock + Threads + Wait + Sync,
{
    let alloc: Global = rt.alloc();
    let long = vec![in alloc; b'\n'; LONG]?;
    Ok(is_bad(rt, job, &long))
}

// Whether a proof is bad under a root that is no digest.
fn is_bad_under<R>(rt: &R, root: &str, proof: &[u8]) -> Result<bool>
where
    R: AllocGlobal + Clock + Threads + Wait + Sync,
{
    let job = Job::CheckProof {
        root: String::from_str(rt.alloc(), root)?,
        account: None,
        file: None,
    };
    Ok(is_bad(rt, &job, proof))
}

fn is_bad_rootless<R>(rt: &R, proof: &[u8], roots: &[&str]) -> Result<bool>
where
    R: AllocGlobal + Clock + Threads + Wait + Sync,
{
    for root in roots {
        if !is_bad_under(rt, root, proof)? {
            return Ok(false);
        }
    }
    Ok(true)
}

/// Whether a good proof is bad with any byte replaced, cut after any byte, twice, and under a root that is no digest; and so
/// is a text that is longer than any proof.
pub(crate) fn is_tight<R>(rt: &R, job: &Job, proof: &[u8]) -> Result<bool>
where
    R: AllocGlobal + Clock + Threads + Wait + Sync,
{
    Ok(
        is_bad_with(rt, job, proof, BYTES)?
            && is_bad_cut(rt, job, proof)
            && is_bad_twice(rt, job, proof)?
            && is_bad_long(rt, job)?
            && is_bad_rootless(rt, proof, &ROOTS)?,
    )
}
