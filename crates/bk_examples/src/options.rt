//! Command lines with options that change no answer.

use crate::words::words_of;
use anyhow::Result;
use bk_cli::parse_line;
use bk_trial_kit::Tally;
use std::alloc::Global;

// A command line, and whether it asks for a feed to be judged, for words and for progress.
const ASKED: [(&str, bool, bool, bool); 7] = [
    ("bkreplay|run|a", false, false, false),
    ("bkreplay|run|--strict|a", true, false, false),
    ("bkreplay|run|a|--strict", true, false, false),
    ("bkreplay|frames|--strict", true, false, false),
    ("bkreplay|--verbose|apply|a", false, true, false),
    ("bkreplay|--verbose|run|--strict|a", true, true, false),
    (
        "bkreplay|--progress|--verbose|compare|a|b|--strict",
        true,
        true,
        true,
    ),
];

// Whether words ask for these.
fn ask(alloc: Global, words: &[&str], wanted: (bool, bool, bool)) -> bool {
    let (strict, verbose, progress) = wanted;
    match parse_line(alloc, words) {
        Ok(line) => {
            line.strict == strict
                && line.notes.verbose == verbose
                && line.notes.progress == progress
        }
        Err(_) => false,
    }
}

fn asks(alloc: Global, line: &str, wanted: (bool, bool, bool)) -> Result<bool> {
    let words = words_of(alloc, line)?;
    Ok(ask(alloc, &words, wanted))
}

/// All of them.
pub(crate) fn try_options<R: AllocGlobal + Eprint>(rt: &R, tally: &mut Tally) {
    for (line, strict, verbose, progress) in &ASKED {
        let wanted = (*strict, *verbose, *progress);
        tally.judge(rt, line, asks(rt.alloc(), line, wanted));
    }
}
