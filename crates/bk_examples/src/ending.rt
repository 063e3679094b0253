//! A feed that ends at each of its bytes.

use crate::devices::{all_good, feed_alone, job_with, run_by};
use crate::outcome::Outcome;
use anyhow::Result;
use bk_base::Workers;
use bk_trial_kit::ends_of;
use std::alloc::Global;
use std::sync::Wait;
use std::thread::Threads;
use std::time::Clock;

// What a feed leaves that ends inside the frame that begins at an offset.
fn is_cut_at(found: &Outcome, alloc: Global, offset: usize) -> Result<bool> {
    let line = format!(in alloc; "feed fault 2 at {offset}\n")?;
    Ok(found.status == 2 && found.out.is_empty() && found.err.as_slice() == line.as_bytes())
}

// Up to here a feed is cut at each byte, and after that at the end of each frame and now and then in between.
const EACH: usize = 300;

/// Whether a feed that is cut is cut short exactly where no frame from the genesis on ends.
pub(crate) fn cuts_are_right<R>(rt: &R, feed: &[u8]) -> Result<bool>
where
    R: AllocGlobal + Clock + Threads + Wait + Sync,
{
    let alloc: Global = rt.alloc();
    let ends = ends_of(alloc, feed)?;
    let job = run_by(Workers::two());
    let mut frame = 0usize;
    for kept in 0..feed.len() {
        let end = ends.iter().position(|end| *end == kept);
        if kept > EACH && kept % 41 != 0 && end.is_none() {
            continue;
        }
        let found = job_with(rt, &job, feed_alone(&feed[..kept]), all_good(usize::MAX));
        if let Some(index) = end {
            frame = kept;
            if index >= 2 {
                if found.status == 2 {
                    return Ok(false);
                }
                continue;
            }
        }
        if !is_cut_at(&found, alloc, frame)? {
            return Ok(false);
        }
    }
    Ok(true)
}
