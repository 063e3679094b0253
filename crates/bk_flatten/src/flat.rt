//! The order so far.

ghost use Rattle.std.specs.Prelude.{◌≡◌, ◌++◌, ◌∷◌, [], List, IfOk, OnOk, OnErr};
ghost use Rattle.bk_cert.specs.declared.place.CertRef.{CertRef};
ghost use Rattle.bk_rounds.specs.Admission.{IsPresent};
ghost use Rattle.bk_cert.specs.Place.{Lists};
ghost use Rattle.bk_commit.specs.Ordering.{IsWayBack};
ghost use Rattle.bk_flatten.specs.Order.{IsOrder, IsKept, IsWholeOrder};
ghost use Rattle.bk_flatten.specs.private.Part.{IsNew, IsClosed};

use crate::part::{make_rows, mark, marks_at, push_level};
use bk_cert::CertRef;
use bk_commit::{committed, first_level, next_level};
use bk_rounds::{Members, Rounds};
use std::alloc::{AllocError, Global};
use std::marker::Model;

/// The order so far. Contracts see it as the list of what is ordered.
#[derive(Drop)]
pub struct Flat {
    alloc: Global,
    ordered: Vec<CertRef>,
    // By round, the authors of what is ordered.
    marks: Vec<Members>,
}

impl Model for Flat {
    ghost use Rattle.std.specs.Prelude.{List};
    ghost use Rattle.bk_cert.specs.declared.place.CertRef.{CertRef};
    ghost use Rattle.bk_flatten.specs.private.Part.{AreMarks};

    ghost Value = { List CertRef };

    ghost view = { λ s. s.ordered.items };

    ghost invariant = { λ s. AreMarks s.marks.items s.ordered.items };
}

impl Flat {
    /// Nothing is ordered.
    pub fn new(alloc: Global) -> Flat
        ensures { result ≡ [] }
    {
        Flat {
            alloc,
            ordered: Vec::new(alloc),
            marks: Vec::new(alloc),
        }
    }

    /// All that is ordered.
    pub fn order(&self) -> &[CertRef]
        ensures { result.now ≡ self.now }
    {
        self.ordered.as_slice()
    }

    /// Adds what the anchor brings to the order of its prior, and answers it.
    ///
    /// An `Err` comes only where memory runs out, and leaves the order as it was.
    pub fn extend(&mut self, rounds: &Rounds, anchor: CertRef) -> Result<Vec<CertRef>, AllocError>
        requires present { IsPresent rounds.now.sizes rounds.now.held anchor }
        requires kept { IsKept rounds.now.sizes rounds.now.held anchor self.old }
        ensures part { IfOk result (λ part. self.new ≡ self.old ++ part.items) }
        ensures order { OnOk result ((ps : List CertRef)
            → IsWayBack rounds.now.sizes rounds.now.held anchor ps
            → IsOrder rounds.now.sizes rounds.now.held (anchor ∷ ps) self.new) }
        ensures err { OnErr result (self.new ≡ self.old) }
    {
        rounds.sound();
        // The number of members also says that it is 1 to 128.
        let _ = rounds.members();
        let part = self.part_of(rounds, anchor)?;
        make_rows(&mut self.marks, anchor.round)?;
        self.ordered.extend_from_slice(&part)?;
        mark(&mut self.marks, &part);
        Ok(part)
    }

    // What is in the history of an anchor and not ordered yet, by round and author. The sweep ends
    // where nothing of a round is new, since the history of what is ordered is ordered.
    fn part_of(&self, rounds: &Rounds, a: CertRef) -> Result<Vec<CertRef>, AllocError>
        requires closed { IsClosed rounds.now.sizes rounds.now.held self.now }
        requires present { IsPresent rounds.now.sizes rounds.now.held a }
        ensures { IfOk result
            (λ part. Lists part.items (IsNew rounds.now.sizes rounds.now.held a self.now)) }
    {
        rounds.sound();
        // The number of members also says that it is 1 to 128.
        let _ = rounds.members();
        let mut out = Vec::new(self.alloc);
        let mut fresh = first_level(a.author).without(marks_at(&self.marks, a.round));
        let mut round = a.round;
        while round > 0 && !fresh.is_empty() {
            push_level(&mut out, fresh, round)?;
            let next = next_level(rounds, fresh, round);
            round -= 1;
            fresh = next.without(marks_at(&self.marks, round));
        }
        out.reverse();
        Ok(out)
    }
}

/// The order of all committed anchors.
pub fn whole_order(alloc: Global, rounds: &Rounds) -> Result<Flat, AllocError>
    ensures { IfOk result (IsWholeOrder rounds.now.sizes rounds.now.held) }
{
    let anchors = committed(alloc, rounds)?;
    let mut flat = Flat::new(alloc);
    for a in &anchors {
        flat.extend(rounds, *a)?;
    }
    Ok(flat)
}
