//! A line of the table of examples.

use anyhow::{Context, Result, bail};
use bk_trial_kit::Tally;
use std::alloc::Global;

/// A command line, and what the program has to do with it.
#[derive(Drop)]
pub(crate) struct Example<'a> {
    /// The file that has what is to be printed.
    pub(crate) wanted: &'a str,
    /// The exit status.
    pub(crate) status: u8,
    /// The first word of the command.
    pub(crate) command: &'a str,
    /// The file that is read last, after which the example is named.
    pub(crate) name: &'a str,
    /// The words; the first is the program's name.
    pub(crate) words: Vec<&'a str>,
}

impl<'a> Example<'a> {
    /// A line has the file with what is to be printed, the status, the file that is read, and the words of the command
    /// in front of that file.
    pub(crate) fn of(alloc: Global, line: &'a str) -> Result<Example<'a>> {
        let fields: Vec<&'a str> = line.split_whitespace().collect(alloc)?;
        let [wanted, status, name, command, more @ ..] = fields.as_slice() else {
            bail!("a line of the table has four words or more");
        };
        let status = status.parse::<u8>().context("the status")?;
        let mut words = vec![in alloc; "bkreplay", *command]?;
        words.extend_from_slice(more)?;
        words.push(*name)?;
        Ok(Example {
            wanted: *wanted,
            status,
            command: *command,
            name: *name,
            words,
        })
    }

    /// Whether both standard output and standard error may get something: `frames` writes while it reads, with
    /// `--verbose` an answer may be followed by the name of a missing batch, and with `--strict` by what is wrong.
    pub(crate) fn writes_both(&self) -> bool {
        self.command == "frames" || self.has_notes()
    }

    /// Whether more may be printed than the job alone prints.
    pub(crate) fn has_notes(&self) -> bool {
        self.words.contains(&"--verbose") || self.words.contains(&"--strict")
    }

    /// Whether the job gets an answer, and writes nothing before it unless it follows a feed.
    pub(crate) fn is_answered(&self) -> bool {
        matches!(self.status, 0 | 1 | 5) && self.command != "frames"
    }

    /// Whether the same is printed whatever the pieces are that a feed comes in. With `--follow` rows are out before a fault.
    pub(crate) fn is_steady(&self) -> bool {
        self.is_answered() || !self.words.contains(&"--follow")
    }

    /// Whether the first file is a feed.
    pub(crate) fn reads_feed(&self) -> bool {
        !matches!(self.command, "make" | "check-proof" | "check-chain")
    }

    /// Whether it is a run without a number of workers.
    pub(crate) fn has_free_workers(&self) -> bool {
        matches!(self.words.as_slice(), [_, "run", _])
    }

    /// Counts a comparison, and says on standard error what the example did wrong.
    pub(crate) fn note<R: Eprint>(&self, rt: &R, what: &str, is_right: bool, tally: &mut Tally) {
        tally.count(is_right);
        if !is_right {
            let _ = eprintln!(rt; "{} {}: {what}", self.command, self.name);
        }
    }
}
