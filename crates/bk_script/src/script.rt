//! What the lines of a script say so far, and what a line adds to it.

ghost use Rattle.std.specs.Prelude.{◌≡◌, ◌++◌, ◌≤◌, ◌<◌, ◌-◌, ◌^◌, Ok, Err, MatchResult, IfOk, OnOk, IsTrue, length, map, Some, option_map};
ghost use Rattle.bk_base.specs.Feed.{frame_of, frame_text};
ghost use Rattle.bk_script.specs.Known.{nothing_known, closed, grown, with_frame};
ghost use Rattle.bk_script.specs.Judging.{is_in_place, meaning, judged, version_line, members_line, account_line, batch_line, transaction_line, raw_line};
ghost use Rattle.bk_script.specs.Transactions.{with_text};
ghost use Rattle.bk_script.specs.Feeds.{feed_text};
ghost use Rattle.bk_script.specs.Lines.{takes};
ghost use Rattle.bk_script.specs.Answers.{Answers};

use crate::accounts::Accounts;
use crate::batch::OpenBatch;
use crate::fault::{ScriptCode, Stop};
use crate::frames::{feed_bytes, put_frame};
use crate::line::{Keyword, is_ascii, is_skipped, kind};
use crate::names::{Names, is_new_name};
use crate::parts::{members_size, weights_for, weights_listed, word};
use crate::sealing::sealer;
use crate::transactions::line_text;
use crate::words::{hex_bytes, number, pieces};
use bk_base::{Kind, MOST_FEED, Row, Version};
use bk_cert::Header;
use bk_committee::Committee;
use bk_digest::Digest32;
use std::alloc::{AllocError, Global};
use std::marker::Model;

/// What the lines so far say.
#[derive(Drop)]
pub struct Script {
    pub(crate) alloc: Global,
    pub(crate) sealer: Committee,
    version: Version,
    versioned: bool,
    weights: Option<Vec<u32>>,
    pub(crate) late: bool,
    accounts: Accounts,
    pub(crate) batches: Names,
    pub(crate) certs: Names,
    pub(crate) headers: Vec<Header>,
    batch: Option<OpenBatch>,
    body: Vec<u8>,
    size: u64,
}

impl Model for Script {
    ghost use Rattle.std.specs.Prelude.{◌≡◌, ◌≤◌, ℕ, [], length, option_map, unwrap_or};
    ghost use Rattle.std.specs.Global.{Vec};
    ghost use Rattle.bk_script.specs.Known.{Known};
    ghost use Rattle.bk_script.specs.Sealing.{member_keys};

    ghost Value = { Known };

    ghost view = { λ s. record { version = s.version; versioned = s.versioned; weights = option_map (λ (v : Vec ℕ). v.items) s.weights; late = s.late; accounts = s.accounts; batches = s.batches; certs = s.certs; headers = s.headers.items; batch = s.batch; body = s.body.items; size = s.size } };

    ghost invariant = { λ s. (s.sealer.keys ≡ member_keys 128)
        × (length (unwrap_or (option_map (λ (v : Vec ℕ). v.items) s.weights) []) ≤ 128) };
}

impl Script {
    /// Before the first line.
    pub fn new(alloc: Global) -> Result<Script, AllocError>
        ensures { IfOk result (λ script. script ≡ nothing_known) }
    {
        Ok(Script {
            alloc,
            sealer: sealer(alloc)?,
            version: Version::One,
            versioned: false,
            weights: None,
            late: false,
            accounts: Accounts::new(alloc),
            batches: Names::new(alloc),
            certs: Names::new(alloc),
            headers: Vec::new(alloc),
            batch: None,
            body: Vec::new(alloc),
            size: 0,
        })
    }

    // Whether a line of this kind is in its place.
    fn is_in_place(&self, keyword: Keyword) -> bool
        ensures { result ≡ is_in_place self.now keyword }
    {
        match keyword {
            Keyword::Version => !self.versioned && self.weights.is_none(),
            Keyword::Members => self.weights.is_none(),
            Keyword::Account => self.weights.is_some() && !self.late,
            Keyword::Batch | Keyword::Cert | Keyword::Again => self.weights.is_some(),
            Keyword::Pay | Keyword::PayIf | Keyword::Sweep | Keyword::Split | Keyword::Raw => {
                self.batch.is_some()
            }
        }
    }

    /// This many bytes more.
    #[tactic(auto, unfolding(crate::specs::Known::grown))]
    pub(crate) fn grow(&mut self, bytes: usize) -> Result<(), ScriptCode>
        ensures { MatchResult result (λ _. grown self.old bytes ≡ Ok self.new)
            (λ e. grown self.old bytes ≡ Err e) }
    {
        let size = self.size.saturating_add(bytes as u64);
        if size > MOST_FEED {
            return Err(ScriptCode::Range);
        }
        self.size = size;
        Ok(())
    }

    /// Writes one frame more.
    pub(crate) fn put_frame(&mut self, kind: Kind, payload: &[u8]) -> Result<(), AllocError>
        requires { length payload.now < 2 ^ 32 }
        ensures { OnOk result (self.new ≡ with_frame self.old kind payload.now) }
    {
        put_frame(&mut self.body, kind, payload)
    }

    /// Ends the batch that goes on.
    #[tactic(auto, unfolding(crate::specs::Known::closed))]
    pub fn close(&mut self) -> Result<(), AllocError>
        ensures { OnOk result (self.new ≡ closed self.old) }
    {
        let Some(batch) = self.batch.take() else {
            return Ok(());
        };
        let payload = batch.payload(self.alloc)?;
        self.put_frame(Kind::Batch, &payload)?;
        let digest = Digest32::of(&payload);
        self.batches.push(self.alloc, batch.into_name(), digest)
    }

    #[tactic(auto, unfolding(crate::specs::Judging::version_line))]
    fn version_line(&mut self, words: &[&[u8]]) -> Result<(), Stop>
        ensures { Answers (λ _. self.new) result
            (version_line self.old (map (λ w. w.now) words.now)) }
    {
        match number(word(words, 1))? {
            1 => self.version = Version::One,
            2 => self.version = Version::Two,
            _ => return Err(Stop::Code(ScriptCode::Range)),
        }
        self.versioned = true;
        Ok(())
    }

    #[tactic(auto, unfolding(crate::specs::Judging::account_line))]
    fn account_line(&mut self, words: &[&[u8]]) -> Result<(), Stop>
        ensures { Answers (λ _. self.new) result
            (account_line self.old (map (λ w. w.now) words.now)) }
    {
        let id = number(word(words, 1))?;
        let balance = number(word(words, 2))?;
        let seq = if words.len() == 4 {
            number(word(words, 3))?
        } else {
            0
        };
        self.accounts.insert(Row { id, balance, seq })?;
        Ok(self.grow(24)?)
    }

    #[tactic(auto, unfolding(crate::specs::Judging::batch_line))]
    fn batch_line(&mut self, words: &[&[u8]]) -> Result<(), Stop>
        ensures { Answers (λ _. self.new) result
            (batch_line self.old (map (λ w. w.now) words.now)) }
    {
        let name = word(words, 1);
        if !is_new_name(&self.batches, name) {
            return Err(Stop::Code(ScriptCode::Name));
        }
        let name = name.to_vec(self.alloc)?;
        self.batch = Some(OpenBatch::new(self.alloc, name));
        self.late = true;
        Ok(self.grow(7)?)
    }

    #[tactic(auto, unfolding(crate::specs::Judging::raw_line))]
    fn raw_line(&mut self, words: &[&[u8]]) -> Result<(), Stop>
        ensures { Answers (λ _. self.new) result
            (raw_line self.old (map (λ w. w.now) words.now)) }
    {
        let text = hex_bytes(self.alloc, word(words, 1))?;
        self.put_text(text)
    }

    // Puts one more text into the batch that goes on.
    fn put_text(&mut self, text: Vec<u8>) -> Result<(), Stop>
        ensures { Answers (λ _. self.new) result (with_text self.old self.old.batch text.items) }
    {
        let len = text.len();
        match &mut self.batch {
            None => return Err(Stop::Code(ScriptCode::Place)),
            Some(batch) => {
                if !batch.has_room(len) {
                    return Err(Stop::Code(ScriptCode::Range));
                }
                batch.push(text)?;
            }
        }
        Ok(self.grow(2 + len)?)
    }

    #[tactic(auto, unfolding(crate::specs::Judging::members_line))]
    fn members_line(&mut self, words: &[&[u8]]) -> Result<(), Stop>
        ensures { Answers (λ _. self.new) result
            (members_line self.old (map (λ w. w.now) words.now)) }
    {
        let n = number(word(words, 1))?;
        let listed = weights_listed(self.alloc, words)?;
        if n == 0 || n > 128 {
            return Err(Stop::Code(ScriptCode::Range));
        }
        self.weights = Some(weights_for(self.alloc, n, listed)?);
        self.size = members_size(self.version, n);
        Ok(())
    }

    #[tactic(auto, unfolding(crate::specs::Judging::transaction_line))]
    fn transaction_line(&mut self, keyword: Keyword, words: &[&[u8]]) -> Result<(), Stop>
        requires { 5 ≤ length words.now × length words.now ≤ 15 }
        ensures { Answers (λ _. self.new) result
            (transaction_line self.old keyword (map (λ w. w.now) words.now)) }
    {
        let text = line_text(self.alloc, keyword, &words[1..])?;
        self.put_text(text)
    }

    // A line in its place.
    fn mean(&mut self, keyword: Keyword, words: &[&[u8]]) -> Result<(), Stop>
        requires some { 1 ≤ length words.now }
        requires count { IsTrue (takes self.old.version keyword (length words.now - 1)) }
        ensures { Answers (λ _. self.new) result
            (meaning self.old keyword (map (λ w. w.now) words.now)) }
    {
        match keyword {
            Keyword::Version => self.version_line(words),
            Keyword::Members => self.members_line(words),
            Keyword::Account => self.account_line(words),
            Keyword::Batch => {
                self.close()?;
                self.batch_line(words)
            }
            Keyword::Pay | Keyword::PayIf | Keyword::Sweep | Keyword::Split => {
                self.transaction_line(keyword, words)
            }
            Keyword::Raw => self.raw_line(words),
            Keyword::Cert => {
                self.close()?;
                self.cert_line(words)
            }
            Keyword::Again => {
                self.close()?;
                self.again_line(words)
            }
        }
    }

    /// Takes the next line. After an error the value is of no further use: what it then knows is not said.
    #[tactic(auto, unfolding(crate::specs::Judging::judged, crate::specs::Judging::placed))]
    pub fn take(&mut self, line: &[u8]) -> Result<(), Stop>
        ensures { Answers (λ _. self.new) result (judged self.old line.now) }
    {
        if !is_ascii(line) {
            return Err(Stop::Code(ScriptCode::Word));
        }
        if is_skipped(line) {
            return Ok(());
        }
        let words = pieces(self.alloc, b' ', line)?;
        let Some(keyword) = kind(self.version, &words) else {
            return Err(Stop::Code(ScriptCode::Word));
        };
        if !self.is_in_place(keyword) {
            return Err(Stop::Code(ScriptCode::Place));
        }
        self.mean(keyword, &words)
    }

    /// The feed of what is known; nothing where there are no members.
    pub fn feed(&self) -> Result<Option<Vec<u8>>, AllocError>
        ensures { IfOk result (λ found. option_map (λ v. v.items) found ≡ option_map (λ weights.
            feed_text self.now.version weights self.now.accounts self.now.body) self.now.weights) }
    {
        match &self.weights {
            None => Ok(None),
            Some(weights) => Ok(Some(feed_bytes(
                self.alloc,
                self.version,
                weights,
                &self.accounts,
                &self.body,
            )?)),
        }
    }
}
