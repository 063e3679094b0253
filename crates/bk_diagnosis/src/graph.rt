//! What a certificate that waits is judged by.

ghost use Rattle.std.specs.Prelude.{◌≡◌, ◌++◌, ◌∷◌, ℕ, [], List, Contains, IfOk, IfSome, IfNone, OnOk, ◌↔◌};
ghost use Rattle.bk_cert.specs.Node.{Node};
ghost use Rattle.bk_cert.specs.Place.{place_of};
ghost use Rattle.bk_committee.specs.Payload.{sizes_of};
ghost use Rattle.bk_rounds.specs.Admission.{IsWaiting, WaitsAt};
ghost use Rattle.bk_rounds.specs.Members.{Has};
ghost use Rattle.bk_rounds.specs.Votes.{WeighExactly};
ghost use Rattle.bk_diagnosis.specs.Waiting.{AreParentLines, AreReasons, IsFirstRejected, IsNotRejected, IsNowhere, IsParentLine, MadeParent};
ghost use Rattle.bk_diagnosis.specs.private.Graph.{HasReasons, HasParentLines, MadeOneOf, graph_of, line_if, round_line};
ghost use Rattle.bk_diagnosis.specs.declared.line.Line.{Line};

use crate::line::Line;
use crate::rejects::first_rejects;
use bk_cert::{CertRef, SharedCert};
use bk_digest::Digest32;
use bk_evidence::Held;
use bk_order::{Intake, Reject};
use bk_rounds::{Members, Rounds};
use std::alloc::{AllocError, Global};
use std::collections::BTreeMap;
use std::marker::Model;

/// The good certificates of a feed that nothing stops, which of them are admitted, and what is rejected. Contracts see
/// the sizes of the committee and the lists.
#[derive(Drop)]
pub(crate) struct Graph<'a> {
    held: &'a Held,
    rounds: &'a Rounds,
    rejected: &'a [Reject],
    firsts: BTreeMap<Digest32, Reject>,
    needed: u64,
}

impl<'a> Model for Graph<'a> {
    ghost use Rattle.std.specs.Prelude.{◌≡◌, ◌≤◌, ◌↔◌, Contains};
    ghost use Rattle.bk_cert.specs.Clear.{IsClear};
    ghost use Rattle.bk_cert.specs.Node.{Node};
    ghost use Rattle.bk_committee.specs.Sizes.{members, quorum};
    ghost use Rattle.bk_rounds.specs.Admission.{AreFit};
    ghost use Rattle.bk_diagnosis.specs.private.Graph.{GraphValue};
    ghost use Rattle.bk_diagnosis.specs.private.Rejects.{AreFirsts};

    ghost Value = { GraphValue };

    ghost view = { λ g. record { sizes = g.rounds.now.sizes; certs = g.rounds.now.held; rejects = g.rejected.now } };

    ghost invariant = { λ g. ((c : Node) → Contains g.held.now c ↔ Contains g.rounds.now.held c)
        × IsClear g.rounds.now.held × AreFit g.rounds.now.sizes g.rounds.now.held
        × (members g.rounds.now.sizes ≤ 128) × AreFirsts g.rejected.now g.firsts
        × (g.needed ≡ quorum g.rounds.now.sizes) };
}

impl<'a> Graph<'a> {
    /// That of what was taken, whose table of rounds this is.
    pub fn new(
        alloc: Global,
        intake: &'a Intake,
        rounds: &'a Rounds,
    ) -> Result<Graph<'a>, AllocError>
        requires sizes { rounds.now.sizes ≡ sizes_of intake.now.committee }
        requires same { (c : Node) → Contains intake.now.kept.certs c ↔ Contains rounds.now.held c }
        ensures { IfOk result (λ g. g ≡ graph_of rounds.now intake.now) }
    {
        rounds.sound();
        let _ = rounds.members();
        let rejected = intake.rejected();
        Ok(Graph {
            held: intake.held(),
            rounds,
            rejected,
            firsts: first_rejects(alloc, rejected)?,
            needed: intake.committee().quorum(),
        })
    }

    /// The certificate that waits at a place.
    pub fn waiting_at(&self, place: CertRef) -> Option<&SharedCert>
        requires { WaitsAt self.now.sizes self.now.certs place }
        ensures found { IfSome result (λ c. IsWaiting self.now.sizes self.now.certs c.now
            × (place_of c.now ≡ place)) }
        ensures none { IfNone result ⊥ }
    {
        self.held.at(place)
    }

    // The first with this id that is rejected.
    fn first_rejected(&self, id: &Digest32) -> Option<Reject>
        ensures found { IfSome result (IsFirstRejected self.now.rejects id.now) }
        ensures none { IfNone result (IsNotRejected self.now.rejects id.now) }
    {
        self.firsts.get(id).copied()
    }

    // The line of a parent that is not held.
    fn unheld_line(&self, parent: &Digest32) -> Line
        requires { IsNowhere self.now.certs parent.now }
        ensures { (c : Node) → IsParentLine self.now.sizes self.now.certs self.now.rejects c
            parent.now (result ∷ []) }
    {
        match self.first_rejected(parent) {
            None => Line::Absent { id: *parent },
            Some(reject) => Line::Rejected {
                id: *parent,
                frame: reject.frame,
                rule: reject.rule,
            },
        }
    }

    // The line of a parent that is held, for a certificate of this round.
    fn held_line(&self, parent: &SharedCert, round: u32) -> Option<Line>
        requires { Contains self.now.certs parent.now }
        ensures { (c : Node) → c.header.round ≡ round → IsParentLine self.now.sizes self.now.certs
            self.now.rejects c parent.now.id (line_if result) }
    {
        let id = *parent.id();
        let header = parent.header();
        let before = header.round();
        let author = header.author();
        let place = CertRef {
            round: before,
            author,
        };
        match self.rounds.at(place) {
            Some(_) => admitted_line(id, place, round),
            None => Some(Line::ParentWaiting {
                id,
                round: before,
                author,
            }),
        }
    }

    // The line of a parent of a certificate of this round, where it keeps that from being admitted.
    fn parent_line(&self, parent: &Digest32, round: u32) -> Option<Line>
        ensures { (c : Node) → c.header.round ≡ round → IsParentLine self.now.sizes self.now.certs
            self.now.rejects c parent.now (line_if result) }
    {
        match self.held.get(parent) {
            Some(cert) => self.held_line(cert, round),
            None => Some(self.unheld_line(parent)),
        }
    }

    // Adds the lines of the parents of a certificate.
    fn push_parents(&self, lines: &mut Vec<Line>, cert: &SharedCert) -> Result<(), AllocError>
        ensures { OnOk result (HasParentLines self.now cert.now cert.now.header.parents
            lines.old.items lines.new.items) }
    {
        let header = cert.header();
        let round = header.round();
        for parent in header.parents() {
            if let Some(line) = self.parent_line(parent, round) {
                lines.push(line)?;
            }
        }
        Ok(())
    }

    // The authors of these parents.
    fn authors_of(&self, parents: &[Digest32]) -> Members
        ensures { (x : ℕ) → Has result x ↔ MadeOneOf self.now.certs parents.now x }
    {
        let mut authors = Members::none();
        for parent in parents {
            if let Some(cert) = self.held.get(parent) {
                authors = authors.with(cert.header().author());
            }
        }
        authors
    }

    // What the authors of the parents of a certificate weigh together.
    fn parents_weight(&self, cert: &SharedCert) -> u64
        ensures { WeighExactly self.now.sizes (MadeParent self.now.certs cert.now) result }
    {
        let authors = self.authors_of(cert.header().parents());
        self.rounds.weight_of(authors)
    }

    /// Adds the lines that say why a certificate waits.
    pub fn push_reasons(&self, lines: &mut Vec<Line>, cert: &SharedCert) -> Result<(), AllocError>
        ensures { OnOk result (HasReasons self.now cert.now lines.old.items lines.new.items) }
    {
        let before = lines.len();
        self.push_parents(lines, cert)?;
        if lines.len() == before {
            let weight = self.parents_weight(cert);
            let quorum = self.needed;
            lines.push(Line::Weight { weight, quorum })?;
        }
        Ok(())
    }
}

// The line of a parent that is admitted at this place, for a certificate of this round: none where it is the next one.
fn admitted_line(id: Digest32, place: CertRef, round: u32) -> Option<Line>
    ensures { result ≡ round_line id place round }
{
    let CertRef {
        round: before,
        author,
    } = place;
    if u64::from(before) + 1 == u64::from(round) {
        return None;
    }
    Some(Line::ParentRound {
        id,
        round: before,
        author,
    })
}
