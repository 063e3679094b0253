//! Chosen texts, and what comes of them, worked out by hand: command lines, the lines of faults, scripts, lists of events,
//! and large frames in small pieces. The digests of feeds were worked out by another program.

use crate::events::try_events;
use crate::faults::try_faults;
use crate::large_frames::try_large_frames;
use crate::longest::try_longest;
use crate::many::try_many;
use crate::options::try_options;
use crate::script_faults::try_script_faults;
use crate::scripts::try_scripts;
use crate::words::try_good_words;
use crate::wrong_words::try_wrong_words;
use anyhow::Result;
use bk_trial_kit::Tally;

fn try_lines<R: AllocGlobal + Eprint>(rt: &R, tally: &mut Tally) {
    try_good_words(rt, tally);
    try_wrong_words(rt, tally);
    try_options(rt, tally);
    try_faults(rt, tally);
}

fn try_all_scripts<R: AllocGlobal + Eprint>(rt: &R, tally: &mut Tally) -> Result<()> {
    try_scripts(rt, tally);
    try_script_faults(rt, tally);
    try_many(rt, tally)
}

/// All of them.
pub(crate) fn try_texts<R: AllocGlobal + Eprint>(rt: &R, tally: &mut Tally) -> Result<()> {
    try_lines(rt, tally);
    try_all_scripts(rt, tally)?;
    try_events(rt, tally)?;
    try_longest(rt, tally)?;
    try_large_frames(rt, tally)
}
