//! The certificates of a script: what its `cert` and `again` lines add.

ghost use Rattle.std.specs.Prelude.{◌<◌, map, All};
ghost use Rattle.bk_script.specs.Known.{place_of, grown};
ghost use Rattle.bk_script.specs.Judging.{cert_line, again_line, header_found, with_certificate, with_named};
ghost use Rattle.bk_script.specs.Answers.{Answers};
ghost use Rattle.bk_script.specs.private.Certificates.{with_ids_named, with_items_named, with_lists_named};

use crate::fault::{ScriptCode, Stop};
use crate::names::{all_meant, is_new_name, place};
use crate::parts::{header_in, parents_of, signers_in, word};
use crate::script::Script;
use crate::sealing::sealed;
use crate::words::{list, number, numbers};
use bk_base::Kind;
use bk_cert::Header;
use bk_digest::Digest32;

impl Script {
    // Writes the frame of a certificate that these members sign.
    #[tactic(auto, unfolding(crate::specs::Judging::with_certificate, crate::specs::Known::grown))]
    fn put_certificate(&mut self, header: &Header, signers: &[u8]) -> Result<(), Stop>
        requires { All (λ signer. signer < 128) signers.now }
        ensures { Answers (λ _. self.new) result
            (with_certificate self.old header.now signers.now) }
    {
        let header = header.try_clone(self.alloc)?;
        let payload = sealed(self.alloc, &self.sealer, header, signers)?;
        self.grow(5 + payload.len())?;
        Ok(self.put_frame(Kind::Certificate, &payload)?)
    }

    // Writes the frame of a certificate that these members sign, and keeps it under its name.
    #[tactic(auto, unfolding(crate::specs::Judging::with_named))]
    fn put_named(&mut self, name: &[u8], header: Header, signers: &[u8]) -> Result<(), Stop>
        requires { All (λ signer. signer < 128) signers.now }
        ensures { Answers (λ _. self.new) result
            (with_named self.old name.now header signers.now) }
    {
        self.put_certificate(&header, signers)?;
        let name = name.to_vec(self.alloc)?;
        self.certs.push(self.alloc, name, header.id())?;
        self.headers.push(header)?;
        self.late = true;
        Ok(())
    }

    // Writes the frame of a certificate of these parts, and keeps it under its name.
    fn put_of_ids(
        &mut self,
        name: &[u8],
        round: u64,
        author: u64,
        batches: Vec<Digest32>,
        parents: &[Digest32],
        signers: &[u64],
    ) -> Result<(), Stop>
        ensures { Answers (λ _. self.new) result
            (with_ids_named self.old name.now round author batches.items parents.now signers.now) }
    {
        let parents = parents_of(self.alloc, parents)?;
        let signers = signers_in(self.alloc, signers)?;
        let header = header_in(author, round, batches, parents)?;
        self.put_named(name, header, &signers)
    }

    // The same of items that are digests or names.
    fn put_of_items(
        &mut self,
        name: &[u8],
        round: u64,
        author: u64,
        batches: &[&[u8]],
        parents: &[&[u8]],
        signers: &[u64],
    ) -> Result<(), Stop>
        ensures { Answers (λ _. self.new) result
            (with_items_named self.old name.now round author (map (λ p. p.now) batches.now)
            (map (λ p. p.now) parents.now) signers.now) }
    {
        let batches = all_meant(self.alloc, &self.batches, batches)?;
        let parents = all_meant(self.alloc, &self.certs, parents)?;
        self.put_of_ids(name, round, author, batches, &parents, signers)
    }

    // The same of a new name, and of signers as the line lists them.
    fn put_of_lists(
        &mut self,
        name: &[u8],
        round: u64,
        author: u64,
        batches: &[&[u8]],
        parents: &[&[u8]],
        signers: &[u8],
    ) -> Result<(), Stop>
        ensures { Answers (λ _. self.new) result
            (with_lists_named self.old name.now round author (map (λ p. p.now) batches.now)
            (map (λ p. p.now) parents.now) signers.now) }
    {
        let items = list(self.alloc, signers)?;
        let signers = numbers(self.alloc, &items)?;
        if !is_new_name(&self.certs, name) {
            return Err(Stop::Code(ScriptCode::Name));
        }
        self.put_of_items(name, round, author, batches, parents, &signers)
    }

    /// A `cert` line.
    #[tactic(auto, unfolding(crate::specs::Judging::cert_line))]
    pub(crate) fn cert_line(&mut self, words: &[&[u8]]) -> Result<(), Stop>
        ensures { Answers (λ _. self.new) result
            (cert_line self.old (map (λ w. w.now) words.now)) }
    {
        let round = number(word(words, 2))?;
        let author = number(word(words, 3))?;
        let batches = list(self.alloc, word(words, 4))?;
        let parents = list(self.alloc, word(words, 5))?;
        self.put_of_lists(
            word(words, 1),
            round,
            author,
            &batches,
            &parents,
            word(words, 6),
        )
    }

    // The header of the certificate of this name.
    fn header_named(&self, name: &[u8]) -> Result<Header, Stop>
        ensures { Answers (λ header. header) result
            (header_found self.now.headers (place_of self.now.certs name.now)) }
    {
        let Some(place) = place(&self.certs, name) else {
            return Err(Stop::Code(ScriptCode::Name));
        };
        let Some(header) = self.headers.get(place) else {
            return Err(Stop::Code(ScriptCode::Name));
        };
        Ok(header.try_clone(self.alloc)?)
    }

    /// An `again` line.
    #[tactic(auto, unfolding(crate::specs::Judging::again_line))]
    pub(crate) fn again_line(&mut self, words: &[&[u8]]) -> Result<(), Stop>
        ensures { Answers (λ _. self.new) result
            (again_line self.old (map (λ w. w.now) words.now)) }
    {
        let items = list(self.alloc, word(words, 2))?;
        let members = numbers(self.alloc, &items)?;
        let header = self.header_named(word(words, 1))?;
        let signers = signers_in(self.alloc, &members)?;
        self.put_certificate(&header, &signers)
    }
}
