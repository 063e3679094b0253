ghost use Rattle.std.specs.Prelude.{◌≡◌, ◌≢◌, Some, None, if◌then◌else◌, IfSome, IfNone, IfOk, IsSome, ◌↔◌};
ghost use Rattle.bk_tx.specs.Transaction.{Transaction, transaction};
ghost use Rattle.bk_tx.specs.Spelling.{transaction_text, IsTransaction};
ghost use Rattle.bk_tx.specs.Reading.{transaction_of};

use crate::body::Body;
use crate::declared::Declarations;
use crate::reading::read_parts;
use crate::writing::{put_body, put_declared, put_u64};
use std::alloc::{AllocError, Global};
use std::marker::Model;

/// One transaction, of fixed size. A value that its bytes cannot encode cannot be made.
#[derive(Debug, Drop)]
pub struct Tx {
    pub(crate) declared: Declarations,
    pub(crate) seq: u64,
    pub(crate) from: u64,
    pub(crate) body: Body,
}

impl Model for Tx {
    ghost use Rattle.bk_tx.specs.Transaction.{Transaction, transaction};
    ghost use Rattle.bk_tx.specs.Spelling.{IsTransaction};

    ghost Value = { Transaction };

    ghost view = { λ t. transaction t.declared t.seq t.from t.body };

    ghost invariant = { λ t. IsTransaction (transaction t.declared t.seq t.from t.body) };
}

impl Tx {
    /// A transaction of these parts; nothing where they make none: 1 to 8 accounts declared by ascending id, no
    /// receiver that is the sender, and payments of a split that are 1 to 6 by ascending receiver.
    pub fn new(declared: Declarations, seq: u64, from: u64, body: Body) -> Option<Tx>
        ensures exact { IsSome result ↔ IsTransaction (transaction declared seq from body) }
        ensures parts { IfSome result (λ t. t ≡ transaction declared seq from body) }
    {
        if declared.is_empty() {
            return None;
        }
        if !declared.is_ascending() {
            return None;
        }
        if !body.is_sound() {
            return None;
        }
        if body.pays(from) {
            return None;
        }
        Some(Tx {
            declared,
            seq,
            from,
            body,
        })
    }

    /// The transaction that the bytes encode, all of the bytes; nothing where they encode none.
    pub fn decode(bytes: &[u8]) -> Option<Tx>
        ensures exact { result ≡ transaction_of bytes.now }
        ensures found { IfSome result (λ t. IsTransaction t × (bytes.now ≡ transaction_text t)) }
        ensures none { IfNone result ((t : Transaction) → IsTransaction t
            → bytes.now ≢ transaction_text t) }
    {
        let mut tx = Tx::blank();
        if tx.read(bytes) { Some(tx) } else { None }
    }

    // A transaction of which nothing is asked but that it is one.
    pub(crate) fn blank() -> Tx {
        Tx {
            declared: Declarations::first(),
            seq: 0,
            from: 0,
            body: Body::Sweep { to: 1, keep: 0 },
        }
    }

    // Becomes the transaction that the bytes encode, all of the bytes, if they encode one, and returns whether they do.
    pub(crate) fn read(&mut self, bytes: &[u8]) -> bool
        ensures { (if result then Some self.new else None) ≡ transaction_of bytes.now }
    {
        self.declared.clear();
        let is_read = read_parts(
            bytes,
            &mut self.declared,
            &mut self.seq,
            &mut self.from,
            &mut self.body,
        )
        .is_some();
        if !is_read {
            *self = Tx::blank();
        }
        is_read
    }

    /// The same transaction again.
    pub fn copy(&self) -> Tx
        ensures { result ≡ self.now }
    {
        Tx {
            declared: self.declared.copy(),
            seq: self.seq,
            from: self.from,
            body: self.body.copy(),
        }
    }

    /// The accounts that it may look at, by ascending id.
    pub fn declared(&self) -> &Declarations
        ensures all { result.now ≡ self.now.declared }
        ensures sound { IsTransaction self.now }
    {
        &self.declared
    }

    /// The sender's sequence number at which it counts.
    pub fn seq(&self) -> u64
        ensures { result ≡ self.now.seq }
    {
        self.seq
    }

    /// The sender.
    pub fn from(&self) -> u64
        ensures { result ≡ self.now.from }
    {
        self.from
    }

    /// What it does.
    pub fn body(&self) -> &Body
        ensures { result.now ≡ self.now.body }
    {
        &self.body
    }

    /// Its bytes. It reserves once.
    pub fn encode(&self, alloc: Global) -> Result<Vec<u8>, AllocError>
        ensures { IfOk result (λ text. text.items ≡ transaction_text self.now) }
    {
        let size = 18 + 9 * self.declared.len() + self.body.text_len();
        let mut text = Vec::with_capacity(alloc, size)?;
        text.push(self.body.kind())?;
        put_declared(&mut text, &self.declared)?;
        put_u64(&mut text, self.seq)?;
        put_u64(&mut text, self.from)?;
        put_body(&mut text, &self.body)?;
        Ok(text)
    }
}
