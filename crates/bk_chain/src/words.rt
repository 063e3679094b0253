//! What the words of a line say.

ghost use Rattle.std.specs.Prelude.{◌≡◌, ◌<◌, IfSome, map};
ghost use Rattle.bk_chain.specs.private.Reading.{below, count_in, digest_in, end_in, link_in, link_of_words, version_in, word};

use crate::link::LinkValue;
use bk_base::Version;
use bk_digest::Digest32;
use bk_results::Status;
use bk_script::number;
use hex::FromHex;

fn version_in(word: &[u8]) -> Option<Version>
    ensures { result ≡ version_in word.now }
{
    if word == b"1".as_slice() {
        Some(Version::One)
    } else if word == b"2".as_slice() {
        Some(Version::Two)
    } else {
        None
    }
}

fn end_in(word: &[u8]) -> Option<Status>
    ensures { result ≡ end_in word.now }
{
    if word == b"whole".as_slice() {
        Some(Status::Whole)
    } else if word == b"short".as_slice() {
        Some(Status::Missing)
    } else {
        None
    }
}

// The digest that a word writes in hexadecimal digits of either case.
fn digest_in(word: &[u8]) -> Option<Digest32>
    ensures { result ≡ digest_in word.now }
{
    match <[u8; 32] as FromHex>::from_hex(word) {
        Ok(bytes) => Some(Digest32::new(bytes)),
        Err(_) => None,
    }
}

// The number that a word writes, below a limit.
fn below(limit: u64, word: &[u8]) -> Option<u64>
    ensures number { result ≡ below limit word.now }
    ensures few { IfSome result (λ n. n < limit) }
{
    let Ok(n) = number(word) else {
        return None;
    };
    if n < limit { Some(n) } else { None }
}

// A number of accounts or of transactions.
fn count_in(word: &[u8]) -> Option<u32>
    ensures { result ≡ count_in word.now }
{
    let n = below(4_294_967_296, word)?;
    Some(n as u32)
}

// The word at a place of a line, none past its end.
fn word<'a>(words: &[&'a [u8]], at: usize) -> &'a [u8]
    ensures { result.now ≡ word (map (λ w. w.now) words.now) at }
{
    match words.get(at) {
        Some(word) => *word,
        None => &[],
    }
}

// What sixteen words say.
#[tactic(auto, unfolding(crate::specs::private::Reading::link_of_words))]
fn link_of_words(words: &[&[u8]]) -> Option<LinkValue>
    ensures { result ≡ link_of_words (map (λ w. w.now) words.now) }
{
    let version = version_in(word(words, 2))?;
    let committee = digest_in(word(words, 4))?;
    let opening = digest_in(word(words, 6))?;
    let closing = digest_in(word(words, 8))?;
    let accounts = count_in(word(words, 10))?;
    let money = below(9_223_372_036_854_775_808, word(words, 12))?;
    let transactions = count_in(word(words, 14))?;
    let end = end_in(word(words, 15))?;
    Some(LinkValue {
        version,
        committee,
        opening,
        closing,
        accounts,
        money,
        transactions,
        end,
    })
}

// What the words of a line say, where they are as many as those of a link.
#[tactic(auto, unfolding(crate::specs::private::Reading::link_in))]
pub(crate) fn link_in(words: &[&[u8]]) -> Option<LinkValue>
    ensures { result ≡ link_in (map (λ w. w.now) words.now) }
{
    if words.len() == 16 {
        link_of_words(words)
    } else {
        None
    }
}
