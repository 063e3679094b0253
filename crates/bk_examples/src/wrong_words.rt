//! Command lines that name no job, and what kind of error they give. Those of examples are left out.

use crate::words::words_of;
use anyhow::Result;
use bk_cli::parse_line;
use bk_trial_kit::Tally;
use clap::error::ErrorKind;
use std::alloc::Global;

const WRONG: [(&str, ErrorKind); 52] = [
    ("bkreplay", ErrorKind::MissingSubcommand),
    ("bkreplay|replay", ErrorKind::InvalidSubcommand),
    ("bkreplay|run|a|b", ErrorKind::UnknownArgument),
    ("bkreplay|run|--workers|0", ErrorKind::ValueValidation),
    ("bkreplay|run|--workers|65", ErrorKind::ValueValidation),
    ("bkreplay|run|--workers|two", ErrorKind::ValueValidation),
    ("bkreplay|run|--workers", ErrorKind::InvalidValue),
    ("bkreplay|apply|a|b", ErrorKind::UnknownArgument),
    ("bkreplay|apply|--workers|2", ErrorKind::UnknownArgument),
    ("bkreplay|make|a|b", ErrorKind::UnknownArgument),
    ("bkreplay|check-proof", ErrorKind::MissingRequiredArgument),
    ("bkreplay|check-proof|a|b|c", ErrorKind::UnknownArgument),
    ("bkreplay|compare|-|-", ErrorKind::ValueValidation),
    ("bkreplay|check-report|-", ErrorKind::ValueValidation),
    (
        "bkreplay|transactions|--accounts|-",
        ErrorKind::ValueValidation,
    ),
    (
        "bkreplay|transactions|--accounts|-|-",
        ErrorKind::ValueValidation,
    ),
    (
        "bkreplay|transactions|--follow|--wait",
        ErrorKind::ValueValidation,
    ),
    (
        "bkreplay|transactions|--follow|--follow|a",
        ErrorKind::ArgumentConflict,
    ),
    ("bkreplay|postings|--wait|a", ErrorKind::ValueValidation),
    ("bkreplay|batches|--follow|a", ErrorKind::UnknownArgument),
    (
        "bkreplay|check-proof|--account|-1|a",
        ErrorKind::UnknownArgument,
    ),
    (
        "bkreplay|check-proof|--account|18446744073709551616|a",
        ErrorKind::ValueValidation,
    ),
    (
        "bkreplay|check-proof|--account|one|a",
        ErrorKind::ValueValidation,
    ),
    ("bkreplay|waiting|a|b", ErrorKind::UnknownArgument),
    ("bkreplay|missing|--workers|2", ErrorKind::UnknownArgument),
    ("bkreplay|run|--help", ErrorKind::DisplayHelp),
    ("bkreplay|--help", ErrorKind::DisplayHelp),
    ("bkreplay|--version", ErrorKind::DisplayVersion),
    ("bkreplay|schedule", ErrorKind::MissingRequiredArgument),
    ("bkreplay|schedule|a", ErrorKind::MissingRequiredArgument),
    ("bkreplay|schedule|a|b|c", ErrorKind::UnknownArgument),
    (
        "bkreplay|schedule|--workers|0|a|b",
        ErrorKind::ValueValidation,
    ),
    (
        "bkreplay|schedule|--workers|65|a|b",
        ErrorKind::ValueValidation,
    ),
    ("bkreplay|schedule|--help", ErrorKind::DisplayHelp),
    ("bkreplay|check-state", ErrorKind::MissingRequiredArgument),
    ("bkreplay|check-state|", ErrorKind::ValueValidation),
    (
        "bkreplay|check-state|--workers|0|a0f73141eeeda4cb3f115f1ee0468dde8a3de31db5fd987f0eec1df811bce063",
        ErrorKind::ValueValidation,
    ),
    // These read no feed.
    ("bkreplay|make|--progress", ErrorKind::UnknownArgument),
    (
        "bkreplay|check-proof|--progress|a",
        ErrorKind::UnknownArgument,
    ),
    (
        "bkreplay|--progress|check-chain",
        ErrorKind::UnknownArgument,
    ),
    // These have no order to judge.
    ("bkreplay|make|--strict", ErrorKind::UnknownArgument),
    ("bkreplay|evidence|--strict", ErrorKind::UnknownArgument),
    ("bkreplay|apply|--strict", ErrorKind::UnknownArgument),
    (
        "bkreplay|check-proof|--strict|a",
        ErrorKind::UnknownArgument,
    ),
    ("bkreplay|schedule|--strict|a|b", ErrorKind::UnknownArgument),
    ("bkreplay|check-chain|--strict", ErrorKind::UnknownArgument),
    // Only the options that every command has come before its name.
    ("bkreplay|--strict|run|a", ErrorKind::UnknownArgument),
    ("bkreplay|--workers|2|run|a", ErrorKind::UnknownArgument),
    ("bkreplay|--verbose", ErrorKind::UnknownArgument),
    ("bkreplay|help", ErrorKind::DisplayHelp),
    ("bkreplay|help|run", ErrorKind::DisplayHelp),
    ("bkreplay|help|nothing", ErrorKind::InvalidSubcommand),
];

// Whether the words give an error of this kind.
fn gives(alloc: Global, words: &[&str], kind: ErrorKind) -> bool {
    match parse_line(alloc, words) {
        Ok(_) => false,
        Err(error) => error.kind() == kind,
    }
}

fn is_wrong(alloc: Global, line: &str, kind: ErrorKind) -> Result<bool> {
    let words = words_of(alloc, line)?;
    Ok(gives(alloc, &words, kind))
}

/// All of them.
pub(crate) fn try_wrong_words<R: AllocGlobal + Eprint>(rt: &R, tally: &mut Tally) {
    for (line, kind) in &WRONG {
        tally.judge(rt, line, is_wrong(rt.alloc(), line, *kind));
    }
}
