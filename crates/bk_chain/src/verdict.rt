//! The verdict on a chain, and its text.

ghost use Rattle.std.specs.Prelude.{◌≡◌, ◌++◌, IfOk, OnOk, string_bytes};
ghost use Rattle.bk_chain.specs.Chain.{break_text, broken_text, chain_text, digests_text, end_of, feeds_text, verdict_text, work_text};

use bk_digest::Digest32;
use bk_results::Status;
use std::alloc::{AllocError, Global};
use std::fmt;

/// Why a link does not follow the one before it. Where several apply it is the first of them.
#[derive(Clone, Copy, Debug, PartialEq, Eq)]
pub enum Break {
    /// Their versions differ.
    Version,
    /// A batch is missing in the feed of the one before.
    Short,
    /// It does not open with the accounts with which the one before closes.
    Opening,
}

/// A chain whose links all follow each other.
#[derive(Clone, Copy, Debug, PartialEq, Eq)]
pub struct Chain {
    /// How many links it has.
    pub feeds: u64,
    /// The digest of the state with which it opens.
    pub opening: Digest32,
    /// The digest of the state with which it closes.
    pub closing: Digest32,
    /// How many places were executed in all feeds together.
    pub transactions: u64,
    /// Whether a batch of the last feed is missing.
    pub end: Status,
}

/// The verdict on links.
#[derive(Clone, Copy, Debug, PartialEq, Eq)]
pub enum Verdict {
    /// They are a chain.
    Good(Chain),
    /// This link, counted from 1, is the first that does not follow the one before it.
    Broken { line: u64, by: Break },
}

/// How a check ends.
#[derive(Clone, Copy, Debug, PartialEq, Eq)]
pub enum ChainEnd {
    /// The chain is good, and its last feed is whole.
    Whole,
    /// The chain is good, and a batch of its last feed is missing.
    Short,
    /// The chain is broken.
    Broken,
}

impl Verdict {
    /// How a check with this verdict ends.
    pub fn end(&self) -> ChainEnd
        ensures { result ≡ end_of self.now }
    {
        match self {
            Verdict::Good(chain) => match chain.end {
                Status::Whole => ChainEnd::Whole,
                Status::Missing => ChainEnd::Short,
            },
            Verdict::Broken { .. } => ChainEnd::Broken,
        }
    }
}

// Adds the lines of a good chain, first the number of its feeds.
fn push_feeds(text: &mut String, chain: &Chain) -> Result<(), AllocError>
    ensures { OnOk result (string_bytes text.new ≡ string_bytes text.old ++ feeds_text chain.now) }
{
    let feeds = chain.feeds;
    writeln!(text, "chain good\nfeeds {feeds}")?;
    Ok(())
}

// Then its two digests.
fn push_digests(text: &mut String, chain: &Chain) -> Result<(), AllocError>
    ensures { OnOk result (string_bytes text.new
        ≡ string_bytes text.old ++ digests_text chain.now) }
{
    let opening = chain.opening;
    let closing = chain.closing;
    writeln!(text, "opening {opening}\nclosing {closing}")?;
    Ok(())
}

// Last its transactions.
fn push_work(text: &mut String, chain: &Chain) -> Result<(), AllocError>
    ensures { OnOk result (string_bytes text.new ≡ string_bytes text.old ++ work_text chain.now) }
{
    let transactions = chain.transactions;
    writeln!(text, "transactions {transactions}")?;
    Ok(())
}

// Adds the lines of a good chain.
fn push_chain(text: &mut String, chain: &Chain) -> Result<(), AllocError>
    ensures { OnOk result (string_bytes text.new ≡ string_bytes text.old ++ chain_text chain.now) }
{
    push_feeds(text, chain)?;
    push_digests(text, chain)?;
    push_work(text, chain)
}

// Adds the line of the reason of a break.
fn push_reason(text: &mut String, by: Break) -> Result<(), AllocError>
    ensures { OnOk result (string_bytes text.new ≡ string_bytes text.old ++ break_text by) }
{
    match by {
        Break::Version => text.push_str("version\n"),
        Break::Short => text.push_str("short\n"),
        Break::Opening => text.push_str("opening\n"),
    }
}

// Adds the lines of a break.
fn push_break(text: &mut String, line: u64, by: Break) -> Result<(), AllocError>
    ensures { OnOk result (string_bytes text.new ≡ string_bytes text.old ++ broken_text line by) }
{
    writeln!(text, "chain broken at line {line}")?;
    push_reason(text, by)?;
    Ok(())
}

/// The lines of a verdict, each with its line feed.
pub fn verdict_text(alloc: Global, verdict: &Verdict) -> Result<String, AllocError>
    ensures { IfOk result (λ text. string_bytes text ≡ verdict_text verdict.now) }
{
    let mut text = String::new(alloc);
    match verdict {
        Verdict::Good(chain) => push_chain(&mut text, chain)?,
        Verdict::Broken { line, by } => push_break(&mut text, *line, *by)?,
    }
    Ok(text)
}
