//! Proof texts, checked.

ghost use Rattle.std.specs.Prelude.{◌≡◌, ◌<◌, ◌↔◌, Some, IfOk, IfSome, IfNone, IsTrue};
ghost use Rattle.bk_digest.specs.Digest.{tagged_of};
ghost use Rattle.bk_digest.specs.Tree.{climb};
ghost use Rattle.bk_base.specs.Genesis.{row_text};
ghost use Rattle.bk_report.specs.Proofs.{IsGoodProof, IsGoodProofOf, ShowsAccount};

use crate::proof::Proof;
use crate::reading::read_proof;
use bk_base::Row;
use bk_digest::check_path;
use bk_rules::{Account, account_leaf};
use std::alloc::{AllocError, Global};

/// No text of a proof is longer.
pub const MOST_PROOF: usize = 65_536;

// Whether the path of a proof leads from its account to the digest of its state.
fn leads(proof: &Proof) -> bool
    ensures { IsTrue result ↔ ((proof.now.index < proof.now.size)
        × (climb (tagged_of 0x00 (row_text proof.now.account)) proof.now.index proof.now.size
        proof.now.path ≡ Some proof.now.state)) }
{
    let Row { id, balance, seq } = proof.account;
    let leaf = account_leaf(id, Account { balance, seq });
    let (size, index) = (proof.size as usize, proof.index as usize);
    check_path(&proof.state, size, index, &leaf, &proof.path)
}

// The account of a proof, where a text of at most 65,536 bytes is that of the proof, its `state` line shows `root`, and its
// path leads from its account to that digest.
fn good_account(alloc: Global, root: &[u8], text: &[u8]) -> Result<Option<Row>, AllocError>
    ensures good { IfOk result (λ found. IfSome found (ShowsAccount root.now text.now)) }
    ensures bad { IfOk result (λ found. IfNone found (¬ IsGoodProof root.now text.now)) }
{
    if text.len() > MOST_PROOF {
        return Ok(None);
    }
    let Some(proof) = read_proof(alloc, text)? else {
        return Ok(None);
    };
    let spelled = proof.text(alloc)?;
    if spelled.as_slice() != text {
        return Ok(None);
    }
    let state = proof.state.to_hex(alloc)?;
    if state.as_bytes() != root {
        return Ok(None);
    }
    if leads(&proof) {
        Ok(Some(proof.account))
    } else {
        Ok(None)
    }
}

/// Whether a text of at most 65,536 bytes is that of a proof, its `state` line shows `root`, and
/// its path leads from its account to that digest.
pub fn check_proof(alloc: Global, root: &[u8], text: &[u8]) -> Result<bool, AllocError>
    ensures { IfOk result (λ good. IsTrue good ↔ IsGoodProof root.now text.now) }
{
    let found = good_account(alloc, root, text)?;
    Ok(found.is_some())
}

/// Whether it is one of the account with this id.
pub fn check_proof_of(alloc: Global, root: &[u8], id: u64, text: &[u8]) -> Result<bool, AllocError>
    ensures { IfOk result (λ good. IsTrue good ↔ IsGoodProofOf root.now id text.now) }
{
    match good_account(alloc, root, text)? {
        Some(account) => Ok(account.id == id),
        None => Ok(false),
    }
}
