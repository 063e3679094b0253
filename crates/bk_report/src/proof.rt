//! Proofs of accounts.

ghost use Rattle.std.specs.Prelude.{◌≡◌, ◌==◌, ◌++◌, IfOk, OnOk, MatchOption};
ghost use Rattle.std.specs.List.{position};
ghost use Rattle.bk_base.specs.declared.genesis.Row.{Row};
ghost use Rattle.bk_report.specs.Lines.{text_of};
ghost use Rattle.bk_report.specs.Proofs.{proof_text, path_lines, IsProofOf, IsAbsent};

use crate::leaves::leaves_of;
use crate::line::Line;
use crate::page::push_line;
use bk_base::Row;
use bk_digest::{Digest32, audit_path, tree_root_with};
use std::alloc::{AllocError, Global};
use std::marker::Model;
use std::thread::Threads;

/// A proof that an account is in a state.
#[derive(Debug, Drop)]
pub struct Proof {
    /// The root of the tree of all accounts.
    pub state: Digest32,
    /// How many accounts the tree has.
    pub size: u64,
    /// Where the account is among them, from 0.
    pub index: u64,
    /// The account.
    pub account: Row,
    /// The digests beside its way to the root, from the leaf up.
    pub path: Vec<Digest32>,
}

impl Model for Proof {
    ghost use Rattle.bk_report.specs.Lines.{text_of};
    ghost use Rattle.bk_report.specs.Proofs.{ProofValue};

    ghost Value = { ProofValue };

    ghost view = { λ p. record {
      state = p.state;
      size = p.size;
      index = p.index;
      account = p.account;
      path = p.path.items;
    } };
}

impl Proof {
    /// The text of the proof: a line for each part, and one for each digest of the path.
    pub fn text(&self, alloc: Global) -> Result<Vec<u8>, AllocError>
        ensures { IfOk result (λ text. text.items ≡ proof_text self.now) }
    {
        let mut text = Vec::new(alloc);
        let digest = self.state;
        push_line(&mut text, Line::State { digest })?;
        push_line(&mut text, Line::Size { size: self.size })?;
        push_line(&mut text, Line::Index { index: self.index })?;
        let Row { id, balance, seq } = self.account;
        push_line(&mut text, Line::Account { id, balance, seq })?;
        push_path(&mut text, &self.path)?;
        Ok(text)
    }
}

// Adds a line for each digest of a path.
fn push_path(text: &mut Vec<u8>, path: &[Digest32]) -> Result<(), AllocError>
    ensures { OnOk result (text.new.items ≡ text.old.items ++ text_of (path_lines path.now)) }
{
    for digest in path {
        push_line(text, Line::Path { digest: *digest })?;
    }
    Ok(())
}

// The index of the account with an id.
fn find(rows: &[Row], id: u64) -> Option<usize>
    ensures { result ≡ position (λ (r : Row). r.id == id) rows.now }
{
    rows.iter().position(|row| row.id == id)
}

/// The proof of the account with an id among these accounts, or `None` where none has it. O(n).
pub fn proof_of<R: Threads + Sync>(
    rt: &R,
    alloc: Global,
    rows: &[Row],
    id: u64,
) -> Result<Option<Proof>, AllocError>
    ensures { IfOk result (λ found.
        MatchOption found (IsAbsent rows.now id) (IsProofOf rows.now id)) }
{
    let Some(index) = find(rows, id) else {
        return Ok(None);
    };
    let leaves = leaves_of(alloc, rows)?;
    let path = audit_path(alloc, &leaves, index)?;
    Ok(Some(Proof {
        state: tree_root_with(rt, &leaves),
        size: rows.len() as u64,
        index: index as u64,
        account: rows[index],
        path,
    }))
}
