//! Scripts of some thousand accounts and of some thousand names.

use crate::made::{has_fault, makes};
use anyhow::Result;
use bk_script::ScriptCode;
use bk_trial_kit::Tally;
use std::alloc::Global;

const ACCOUNTS: u64 = 4_000;

const BATCHES: u64 = 3_000;

const CERTS: u64 = 2_000;

// The digest of the feed of all accounts.
const MANY_ACCOUNTS: &str = "0e5682d19c470acb95937a230c49bdac3b553ea5c515b1d05374247bde3353fa";

// The digest of the feed of all batches and certificates.
const MANY_NAMES: &str = "806198d1370f3bd9def028475c2b1afb94b6721f3f395f151ca972bf5b5a2452";

// The order in which accounts are declared.
#[derive(Clone, Copy)]
enum Way {
    Descending,
    Ascending,
    Mixed,
}

// The number of the account at an index: each below 4,000 once, since that has no divisor in common with 1,763.
fn number_at(way: Way, index: u64) -> u64 {
    match way {
        Way::Descending => (ACCOUNTS - 1).saturating_sub(index),
        Way::Ascending => index,
        Way::Mixed => index.saturating_mul(1_763) % ACCOUNTS,
    }
}

// The id of the account of a number.
fn id_of(number: u64) -> u64 {
    number.saturating_mul(7).saturating_add(3)
}

fn put_accounts(alloc: Global, text: &mut String, way: Way) -> Result<()> {
    for index in 0..ACCOUNTS {
        let number = number_at(way, index);
        let (id, balance, seq) = (id_of(number), number % 97 + 1, number % 5);
        text.push_str(&format!(in alloc; "account {id} {balance} {seq}\n")?)?;
    }
    Ok(())
}

fn put_batches(alloc: Global, text: &mut String) -> Result<()> {
    for k in 0..BATCHES {
        let bytes = k.saturating_add(10_000_000);
        text.push_str(&format!(in alloc; "batch b{k}\nraw {bytes}\n")?)?;
    }
    Ok(())
}

// The certificate of this number, which is not 0. It names one batch far from the last one's and one that is near, and
// one or two certificates before.
fn put_cert(alloc: Global, text: &mut String, k: u64) -> Result<()> {
    let (round, last, half) = (k.saturating_add(1), k.saturating_sub(1), k / 2);
    let far = k.saturating_mul(1_763) % BATCHES;
    text.push_str(&format!(in alloc; "cert c{k} {round} 0 b{far},b{half} c{last}")?)?;
    if half != last {
        text.push_str(&format!(in alloc; ",c{half}")?)?;
    }
    text.push_str(" 0\n")?;
    Ok(())
}

// So many certificates. After every hundredth one is written again.
fn put_certs(alloc: Global, text: &mut String, count: u64) -> Result<()> {
    text.push_str("cert c0 1 0 b0 - 0\n")?;
    for k in 1..count {
        put_cert(alloc, text, k)?;
        if k % 100 == 0 {
            let earlier = k.saturating_sub(50);
            text.push_str(&format!(in alloc; "again c{earlier} -\n")?)?;
        }
    }
    Ok(())
}

// A line more, which has the fault, and a line after it.
fn is_refused(alloc: Global, text: &str, last: &str, line: u64, code: ScriptCode) -> Result<bool> {
    let whole = format!(in alloc; "{text}{last}\nbatch other\n")?;
    Ok(has_fault(alloc, whole.as_bytes(), line, code))
}

// All accounts, declared in an order, and then that of this number once more.
fn try_way<R: AllocGlobal + Eprint>(rt: &R, way: Way, again: u64, tally: &mut Tally) -> Result<()> {
    let alloc: Global = rt.alloc();
    let mut text = String::from_str(alloc, "members 1\n")?;
    put_accounts(alloc, &mut text, way)?;
    let is_right = makes(alloc, text.as_str(), MANY_ACCOUNTS);
    tally.note(rt, "many accounts", is_right);
    let id = id_of(again);
    let last = format!(in alloc; "account {id} 0")?;
    let code = ScriptCode::Range;
    let is_right = is_refused(alloc, text.as_str(), last.as_str(), ACCOUNTS + 2, code)?;
    tally.note(rt, last.as_str(), is_right);
    Ok(())
}

fn try_names<R: AllocGlobal + Eprint>(rt: &R, tally: &mut Tally) -> Result<()> {
    let alloc: Global = rt.alloc();
    let mut text = String::from_str(alloc, "members 1\n")?;
    put_batches(alloc, &mut text)?;
    put_certs(alloc, &mut text, CERTS)?;
    tally.note(rt, "many names", makes(alloc, text.as_str(), MANY_NAMES));
    Ok(())
}

// Lines after all batches whose names are given twice, or are names of nothing.
const AFTER_BATCHES: [&str; 3] = ["batch b0", "batch b2999", "cert a 1 0 b0,b3000 - 0"];

// Such lines after 800 certificates. A batch and a certificate may have one name.
const AFTER_CERTS: [&str; 4] = [
    "cert c0 1 0 - - 0",
    "cert b0 1 0 b0 c0,c800 0",
    "again b0 0",
    "batch b1763",
];

fn try_wrong_names<R: AllocGlobal + Eprint>(
    rt: &R,
    text: &str,
    lasts: &[&str],
    line: u64,
    tally: &mut Tally,
) -> Result<()> {
    for last in lasts {
        let is_right = is_refused(rt.alloc(), text, last, line, ScriptCode::Name)?;
        tally.note(rt, last, is_right);
    }
    Ok(())
}

fn try_all_wrong_names<R: AllocGlobal + Eprint>(rt: &R, tally: &mut Tally) -> Result<()> {
    let alloc: Global = rt.alloc();
    let mut text = String::from_str(alloc, "members 1\n")?;
    put_batches(alloc, &mut text)?;
    let line = 2 * BATCHES + 2;
    try_wrong_names(rt, text.as_str(), &AFTER_BATCHES, line, tally)?;
    // Of these certificates 7 are written again.
    put_certs(alloc, &mut text, 800)?;
    try_wrong_names(rt, text.as_str(), &AFTER_CERTS, line + 807, tally)
}

/// All of them. The account that is declared twice is the least, the greatest, and one in between.
pub(crate) fn try_many<R: AllocGlobal + Eprint>(rt: &R, tally: &mut Tally) -> Result<()> {
    try_way(rt, Way::Descending, 0, tally)?;
    try_way(rt, Way::Ascending, ACCOUNTS - 1, tally)?;
    try_way(rt, Way::Mixed, 1_234, tally)?;
    try_names(rt, tally)?;
    try_all_wrong_names(rt, tally)
}
