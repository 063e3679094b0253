//! The batch that goes on: its name, and its transactions so far.

ghost use Rattle.std.specs.Prelude.{◌≡◌, ◌++◌, ◌∷◌, [], ◌+◌, ◌<◌, ◌≤◌, length, OnOk, IfOk, IsTrue};
ghost use Rattle.bk_tx.specs.Spelling.{batch_text};
ghost use Rattle.bk_script.specs.Transactions.{has_room};

use bk_base::MOST_PAYLOAD;
use bk_tx::write_batch;
use std::alloc::{AllocError, Global};
use std::marker::Model;

/// The batch that goes on. Its texts are those of a batch, and it knows how many bytes they make.
#[derive(Drop)]
pub(crate) struct OpenBatch {
    name: Vec<u8>,
    texts: Vec<Vec<u8>>,
    size: usize,
}

impl Model for OpenBatch {
    ghost use Rattle.std.specs.Prelude.{◌≡◌, ◌≤◌, ℕ, length, map};
    ghost use Rattle.std.specs.Global.{Vec};
    ghost use Rattle.bk_base.specs.declared.limits.TheConstants.{MOST_PAYLOAD};
    ghost use Rattle.bk_tx.specs.Spelling.{IsBatch, batch_text};
    ghost use Rattle.bk_script.specs.Known.{OpenValue};

    ghost Value = { OpenValue };

    ghost view = { λ b. record { name = b.name.items; texts = map (λ (t : Vec ℕ). t.items) b.texts.items } };

    ghost invariant = { λ b. IsBatch (map (λ (t : Vec ℕ). t.items) b.texts.items)
        × (b.size ≡ length (batch_text (map (λ (t : Vec ℕ). t.items) b.texts.items)))
        × (b.size ≤ MOST_PAYLOAD) };
}

impl OpenBatch {
    /// A batch of this name, without transactions so far.
    pub(crate) fn new(alloc: Global, name: Vec<u8>) -> OpenBatch
        ensures { result ≡ record { name = name.items; texts = [] } }
    {
        OpenBatch {
            name,
            texts: Vec::new(alloc),
            size: 2,
        }
    }

    /// Whether a text of this many bytes can come after the others.
    pub(crate) fn has_room(&self, len: usize) -> bool
        ensures { result ≡ has_room self.now.texts len }
    {
        self.texts.len() < 65_535 && len < 65_536 && self.size + 2 + len <= MOST_PAYLOAD as usize
    }

    /// Puts one more text after the others.
    pub(crate) fn push(&mut self, text: Vec<u8>) -> Result<(), AllocError>
        requires { IsTrue (has_room self.old.texts (length text.items)) }
        ensures { OnOk result
            (self.new ≡ record self.old { texts = self.old.texts ++ text.items ∷ [] }) }
    {
        let len = text.len();
        self.texts.push(text)?;
        self.size += 2 + len;
        Ok(())
    }

    /// Its payload.
    pub(crate) fn payload(&self, alloc: Global) -> Result<Vec<u8>, AllocError>
        ensures payload { IfOk result (λ payload. payload.items ≡ batch_text self.now.texts) }
        ensures short { length (batch_text self.now.texts) ≤ MOST_PAYLOAD }
    {
        write_batch(alloc, &self.texts)
    }

    /// Its name, taken out of it.
    pub(crate) fn into_name(self) -> Vec<u8>
        ensures { result.items ≡ self.name }
    {
        self.name
    }
}
