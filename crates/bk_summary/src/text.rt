//! The text of a summary.

ghost use Rattle.std.specs.Prelude.{◌≡◌, ◌++◌, Some, OnOk, string_bytes};
ghost use Rattle.bk_summary.specs.Text.{anchor_words, batch_words, cert_words, lost_words, member_words, missing_line, refused_words, rest_words, tx_words, version_line};
ghost use Rattle.bk_summary.specs.Text.{end_text, feed_text, ledger_text, order_text, outcome_text, run_text, setup_text, size_text, summary_text};

use crate::summary::{AnchorCounts, BatchCounts, CertCounts, MemberCounts, Summary, TxCounts};
use bk_base::Version;
use bk_digest::Digest32;
use std::alloc::AllocError;
use std::fmt;

impl fmt::Display for MemberCounts {
    ghost output = { λ m. Some (member_words m) };

    fn fmt<W: fmt::Write>(&self, f: &mut fmt::Formatter<W>) -> fmt::Result {
        let MemberCounts {
            members,
            faulty,
            quorum,
        } = *self;
        write!(f, "members {members} faulty {faulty} quorum {quorum}")
    }
}

impl fmt::Display for CertCounts {
    ghost output = { λ c. Some (cert_words c) };

    fn fmt<W: fmt::Write>(&self, f: &mut fmt::Formatter<W>) -> fmt::Result {
        let CertCounts {
            all,
            rejected,
            repeated,
            waiting,
            ordered,
        } = *self;
        write!(
            f,
            "certificates {all} rejected {rejected} repeated {repeated} waiting {waiting} ordered {ordered}"
        )
    }
}

impl fmt::Display for AnchorCounts {
    ghost output = { λ a. Some (anchor_words a) };

    fn fmt<W: fmt::Write>(&self, f: &mut fmt::Formatter<W>) -> fmt::Result {
        let AnchorCounts {
            committed,
            skipped,
            left_open,
        } = *self;
        write!(f, "anchors {committed} skipped {skipped} open {left_open}")
    }
}

// The second half of the line of batches.
#[derive(Clone, Copy)]
struct Rest {
    void: u64,
    unordered: u64,
}

impl fmt::Display for Rest {
    ghost output = { λ r. Some (rest_words r.void r.unordered) };

    fn fmt<W: fmt::Write>(&self, f: &mut fmt::Formatter<W>) -> fmt::Result {
        let Rest { void, unordered } = *self;
        write!(f, " void {void} unordered {unordered}")
    }
}

impl fmt::Display for BatchCounts {
    ghost output = { λ b. Some (batch_words b) };

    fn fmt<W: fmt::Write>(&self, f: &mut fmt::Formatter<W>) -> fmt::Result {
        let BatchCounts {
            all,
            repeated,
            ordered,
            void,
            unordered,
        } = *self;
        let rest = Rest { void, unordered };
        write!(
            f,
            "batches {all} repeated {repeated} ordered {ordered}{rest}"
        )
    }
}

// The part of the line of transactions for those that are refused.
#[derive(Clone, Copy)]
struct Refused {
    counts: TxCounts,
}

impl fmt::Display for Refused {
    ghost output = { λ r. Some (refused_words r.counts) };

    fn fmt<W: fmt::Write>(&self, f: &mut fmt::Formatter<W>) -> fmt::Result {
        let TxCounts {
            malformed,
            undeclared,
            unknown,
            stale,
            ..
        } = self.counts;
        write!(
            f,
            " malformed {malformed} undeclared {undeclared} unknown {unknown} stale {stale}"
        )
    }
}

// The part for those that count and move nothing.
#[derive(Clone, Copy)]
struct Lost {
    counts: TxCounts,
}

impl fmt::Display for Lost {
    ghost output = { λ l. Some (lost_words l.counts) };

    fn fmt<W: fmt::Write>(&self, f: &mut fmt::Formatter<W>) -> fmt::Result {
        let TxCounts { guard, funds, .. } = self.counts;
        write!(f, " guard {guard} funds {funds}")
    }
}

impl fmt::Display for TxCounts {
    ghost output = { λ t. Some (tx_words t) };

    fn fmt<W: fmt::Write>(&self, f: &mut fmt::Formatter<W>) -> fmt::Result {
        let all = self.all;
        let good = self.good;
        let refused = Refused { counts: *self };
        let lost = Lost { counts: *self };
        write!(f, "transactions {all} ok {good}{refused}{lost}")
    }
}

// Adds the line of a version.
fn push_version(text: &mut String, version: Version) -> Result<(), AllocError>
    ensures { OnOk result (string_bytes text.new ≡ string_bytes text.old ++ version_line version) }
{
    match version {
        Version::One => text.push_str("version 1\n"),
        Version::Two => text.push_str("version 2\n"),
    }
}

// Adds the line of a batch that is missing, if one is.
fn push_missing(text: &mut String, missing: Option<Digest32>) -> Result<(), AllocError>
    ensures { OnOk result (string_bytes text.new ≡ string_bytes text.old ++ missing_line missing) }
{
    if let Some(digest) = missing {
        writeln!(text, "missing {digest}")?;
    }
    Ok(())
}

// Adds what the feed begins with.
fn push_setup(text: &mut String, summary: &Summary) -> Result<(), AllocError>
    ensures { OnOk result (string_bytes text.new
        ≡ string_bytes text.old ++ setup_text summary.now) }
{
    push_version(text, summary.version)?;
    let committee = summary.committee;
    let genesis = summary.genesis;
    writeln!(text, "committee {committee}\ngenesis {genesis}")?;
    Ok(())
}

// Adds its sizes, and how many certificates it has.
fn push_size(text: &mut String, summary: &Summary) -> Result<(), AllocError>
    ensures { OnOk result (string_bytes text.new
        ≡ string_bytes text.old ++ size_text summary.now) }
{
    let members = summary.members;
    let frames = summary.frames;
    let certs = summary.certs;
    writeln!(text, "{members}\nframes {frames}")?;
    writeln!(text, "{certs}")?;
    Ok(())
}

// Adds what it holds.
fn push_feed(text: &mut String, summary: &Summary) -> Result<(), AllocError>
    ensures { OnOk result (string_bytes text.new
        ≡ string_bytes text.old ++ feed_text summary.now) }
{
    push_setup(text, summary)?;
    push_size(text, summary)
}

// Adds what became of anchors and batches.
fn push_order(text: &mut String, summary: &Summary) -> Result<(), AllocError>
    ensures { OnOk result (string_bytes text.new
        ≡ string_bytes text.old ++ order_text summary.now) }
{
    let anchors = summary.anchors;
    let batches = summary.batches;
    writeln!(text, "{anchors}")?;
    writeln!(text, "{batches}")?;
    Ok(())
}

// Adds which batch is missing, if one is, and what became of the transactions.
fn push_run(text: &mut String, summary: &Summary) -> Result<(), AllocError>
    ensures { OnOk result (string_bytes text.new
        ≡ string_bytes text.old ++ run_text summary.now) }
{
    push_missing(text, summary.missing)?;
    let txs = summary.txs;
    writeln!(text, "{txs}")?;
    Ok(())
}

// Adds the accounts at the end.
fn push_end(text: &mut String, summary: &Summary) -> Result<(), AllocError>
    ensures { OnOk result (string_bytes text.new
        ≡ string_bytes text.old ++ end_text summary.now) }
{
    let accounts = summary.accounts;
    let money = summary.money;
    let state = summary.state;
    writeln!(text, "accounts {accounts} money {money}")?;
    writeln!(text, "state {state}")?;
    Ok(())
}

// Adds what became of the transactions and the accounts.
fn push_ledger(text: &mut String, summary: &Summary) -> Result<(), AllocError>
    ensures { OnOk result (string_bytes text.new
        ≡ string_bytes text.old ++ ledger_text summary.now) }
{
    push_run(text, summary)?;
    push_end(text, summary)
}

// Adds what came of it.
fn push_outcome(text: &mut String, summary: &Summary) -> Result<(), AllocError>
    ensures { OnOk result (string_bytes text.new
        ≡ string_bytes text.old ++ outcome_text summary.now) }
{
    push_order(text, summary)?;
    push_ledger(text, summary)
}

/// Adds the lines of a summary to a text, each with its line feed.
pub fn push_summary(text: &mut String, summary: &Summary) -> Result<(), AllocError>
    ensures { OnOk result (string_bytes text.new
        ≡ string_bytes text.old ++ summary_text summary.now) }
{
    push_feed(text, summary)?;
    push_outcome(text, summary)
}
