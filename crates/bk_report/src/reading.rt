//! Proof texts, read back. Only the text of a proof is sure to be read; who reads another
//! compares what comes of it.

ghost use Rattle.std.specs.Prelude.{◌≡◌, ℕ, ◌==◌, ◌^◌, ◌<◌, ◌≤◌, ◌∷◌, ◌++◌, List, Some, IfSome};
ghost use Rattle.std.specs.Prelude.{All, false, IfOk, length, decimal, codes, IsSomeAnd};
ghost use Rattle.std.specs.List.{list_any, position};
ghost use Rattle.hex.specs.Hex.{encode_lower};
ghost use Rattle.bk_base.specs.declared.genesis.Row.{Row};
ghost use Rattle.bk_report.specs.Proofs.{ProofValue, IsProofValue, IsDigest, IsRow};
ghost use Rattle.bk_report.specs.Proofs.{path_lines, proof_text};
ghost use Rattle.bk_report.specs.Lines.{text_of};

use crate::proof::Proof;
use bk_base::Row;
use bk_digest::Digest32;
use std::alloc::{AllocError, Global};
use std::str;

// The text after a word. What is in its place is not looked at.
fn after<'a>(text: &'a [u8], word: &[u8]) -> Option<&'a [u8]>
    ensures found { (rest : List ℕ) → text.now ≡ word.now ++ rest
        → IsSomeAnd result (λ r. r.now ≡ rest) }
    ensures short { IfSome result (λ r. length r.now ≤ length text.now) }
{
    if text.len() < word.len() {
        return None;
    }
    Some(&text[word.len()..])
}

// The first place of a byte.
fn place_of(text: &[u8], end: u8) -> Option<usize>
    ensures { result ≡ position (λ b. b == end) text.now }
{
    text.iter().position(|b| *b == end)
}

// The text before the first of a byte, and the text after it.
fn cut(text: &[u8], end: u8) -> Option<(&[u8], &[u8])>
    ensures found { (word rest : List ℕ) → list_any (λ b. b == end) word ≡ false
        → text.now ≡ word ++ end ∷ rest
        → IsSomeAnd result (λ p. (p.0.now ≡ word) × (p.1.now ≡ rest)) }
    ensures short { IfSome result (λ p. length p.1.now < length text.now) }
{
    let (word, rest) = text.split_at(place_of(text, end)?);
    Some((word, &rest[1..]))
}

// The number of a decimal text.
fn number(word: &[u8]) -> Option<u64>
    ensures found { (n : ℕ) → n < 2 ^ 64 → word.now ≡ decimal n → result ≡ Some n }
    ensures fits { IfSome result (λ n. n < 2 ^ 64) }
{
    let Ok(text) = str::from_utf8(word) else {
        return None;
    };
    match text.parse::<u64>() {
        Ok(number) => Some(number),
        Err(_) => None,
    }
}

// The digest of a hexadecimal text.
fn digest(word: &[u8]) -> Option<Digest32>
    ensures found { (d : List ℕ) → IsDigest d → word.now ≡ encode_lower d → result ≡ Some d }
    ensures digest { IfSome result IsDigest }
{
    let mut bytes = [0; 32];
    match hex::decode_to_slice(word, &mut bytes) {
        Ok(()) => Some(Digest32::new(bytes)),
        Err(_) => None,
    }
}

// A line of a name and a number, and the text after it.
fn number_line<'a>(text: &'a [u8], name: &[u8]) -> Option<(u64, &'a [u8])>
    ensures found { (n : ℕ) (rest : List ℕ) → n < 2 ^ 64
        → text.now ≡ name.now ++ (decimal n ++ 10 ∷ rest)
        → IsSomeAnd result (λ p. (p.0 ≡ n) × (p.1.now ≡ rest)) }
    ensures fits { IfSome result (λ p. p.0 < 2 ^ 64) }
{
    let (word, rest) = cut(after(text, name)?, b'\n')?;
    Some((number(word)?, rest))
}

// A line of a name and a digest, and the text after it.
fn digest_line<'a>(text: &'a [u8], name: &[u8]) -> Option<(Digest32, &'a [u8])>
    ensures found { (d rest : List ℕ) → IsDigest d
        → text.now ≡ name.now ++ (encode_lower d ++ 10 ∷ rest)
        → IsSomeAnd result (λ p. (p.0 ≡ d) × (p.1.now ≡ rest)) }
    ensures digest { IfSome result (λ p. IsDigest p.0) }
    ensures short { IfSome result (λ p. length p.1.now < length text.now) }
{
    let (word, rest) = cut(after(text, name)?, b'\n')?;
    Some((digest(word)?, rest))
}

// The line of an account, and the text after it.
fn account_line(text: &[u8]) -> Option<(Row, &[u8])>
    ensures found { (r : Row) (rest : List ℕ) → IsRow r
        → text.now ≡ codes "account " ++ (decimal r.id ++ 32 ∷ (decimal r.balance ++ 32
        ∷ (decimal r.seq ++ 10 ∷ rest)))
        → IsSomeAnd result (λ p. (p.0 ≡ r) × (p.1.now ≡ rest)) }
    ensures fits { IfSome result (λ p. IsRow p.0) }
{
    let (id, rest) = cut(after(text, b"account ")?, b' ')?;
    let (balance, rest) = cut(rest, b' ')?;
    let (seq, rest) = cut(rest, b'\n')?;
    let row = Row {
        id: number(id)?,
        balance: number(balance)?,
        seq: number(seq)?,
    };
    Some((row, rest))
}

// The digests of the lines of a path, up to the end of the text.
fn read_path(alloc: Global, text: &[u8]) -> Result<Option<Vec<Digest32>>, AllocError>
    ensures found { IfOk result (λ found. (path : List (List ℕ)) → All IsDigest path
        → text.now ≡ text_of (path_lines path) → IsSomeAnd found (λ v. v.items ≡ path)) }
    ensures digests { IfOk result (λ found. IfSome found (λ v. All IsDigest v.items)) }
{
    let mut path = Vec::new(alloc);
    let mut rest = text;
    while !rest.is_empty() {
        let Some(line) = digest_line(rest, b"path ") else {
            return Ok(None);
        };
        path.push(line.0)?;
        rest = line.1;
    }
    Ok(Some(path))
}

/// The proof of a text.
pub fn read_proof(alloc: Global, text: &[u8]) -> Result<Option<Proof>, AllocError>
    ensures found { IfOk result (λ found. (p : ProofValue) → IsProofValue p
        → text.now ≡ proof_text p → IsSomeAnd found (λ q. q ≡ p)) }
    ensures valid { IfOk result (λ found. IfSome found IsProofValue) }
{
    let Some((state, rest)) = digest_line(text, b"state ") else {
        return Ok(None);
    };
    let Some((size, rest)) = number_line(rest, b"size ") else {
        return Ok(None);
    };
    let Some((index, rest)) = number_line(rest, b"index ") else {
        return Ok(None);
    };
    let Some((account, rest)) = account_line(rest) else {
        return Ok(None);
    };
    let Some(path) = read_path(alloc, rest)? else {
        return Ok(None);
    };
    Ok(Some(Proof {
        state,
        size,
        index,
        account,
        path,
    }))
}
