//! The committed anchors, kept while certificates are added.

ghost use Rattle.std.specs.Prelude.{◌≡◌, ◌++◌, [], IfOk, OnOk, OnErr};
ghost use Rattle.bk_commit.specs.Ordering.{IsCommitted};
ghost use Rattle.bk_commit.specs.Growth.{WereCommitted};

use crate::committing::{anchors_above, newest_round};
use bk_cert::CertRef;
use bk_rounds::Rounds;
use std::alloc::{AllocError, Global};
use std::marker::Model;

/// The committed anchors of a table that only grows, oldest first. Contracts see it as their list.
#[derive(Drop)]
pub struct Walk {
    alloc: Global,
    anchors: Vec<CertRef>,
}

impl Model for Walk {
    ghost use Rattle.std.specs.Prelude.{List};
    ghost use Rattle.bk_cert.specs.declared.place.CertRef.{CertRef};

    ghost Value = { List CertRef };

    ghost view = { λ s. s.anchors.items };
}

impl Walk {
    /// No anchor is committed.
    pub fn new(alloc: Global) -> Walk
        ensures { result ≡ [] }
    {
        Walk {
            alloc,
            anchors: Vec::new(alloc),
        }
    }

    /// The committed anchors, oldest first.
    pub fn anchors(&self) -> &[CertRef]
        ensures { result.now ≡ self.now }
    {
        self.anchors.as_slice()
    }

    /// Goes on to the anchors that are committed now, and answers the new ones, oldest first.
    ///
    /// Where no later anchor is voted, it looks at no round; else only at those from the last voted
    /// anchor down to the newest one that it has. An `Err` comes only where memory runs out, and
    /// leaves the walk as it was.
    pub fn advance(&mut self, rounds: &Rounds) -> Result<Vec<CertRef>, AllocError>
        requires before { WereCommitted rounds.now.sizes rounds.now.held self.old }
        ensures committed { OnOk result (IsCommitted rounds.now.sizes rounds.now.held self.new) }
        ensures part { IfOk result (λ part. self.new ≡ self.old ++ part.items) }
        ensures err { OnErr result (self.new ≡ self.old) }
    {
        let part = anchors_above(self.alloc, rounds, newest_round(&self.anchors))?;
        self.anchors.extend_from_slice(&part)?;
        Ok(part)
    }
}
