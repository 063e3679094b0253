//! The words once no thread has the bank.
ghost use Rattle.std.specs.Prelude.{◌≡◌, ℕ, ◌+◌, ◌*◌, ◌^◌, ◌<◌, MatchOption, slice_index};
ghost use Rattle.bk_conflicts.specs.Scene.{status_at};
ghost use Rattle.bk_steps.specs.Course.{Has};
ghost use Rattle.bk_bank.specs.Rule.{state_word};
ghost use Rattle.bk_bank.specs.Steps.{Ends};
ghost use Rattle.bk_bank.specs.Bank.{bank_scene, IsPassOf};
ghost use Rattle.bk_bank.specs.Words.{state_at, moved_word_at, AllFinished, IsFirstUnfinished};

use crate::bank::{Bank, Pass};
use atomic_table::Closed;
use std::alloc::Global;
use std::marker::Model;

/// The words of an execution after its last step.
pub struct Words {
    closed: Closed<(), Global>,
    words: usize,
    places: usize,
}

impl Model for Words {
    ghost use Rattle.std.specs.Mem.Slots.{slots_items, slots_len, IsFull};
    ghost use Rattle.bk_bank.specs.Words.{WordsData, words_data};
    ghost use Rattle.bk_bank.specs.private.Closing.{IsClosed};

    ghost Value = { WordsData };

    ghost view = { λ w. words_data w.words w.places (slots_items w.closed.words) };

    ghost invariant = { λ w. IsFull w.closed.words
        × IsClosed (slots_len w.closed.words) (slots_len w.closed.slots) w.words w.places };
}

impl Bank {
    /// Closes the bank. The words are those of a course that allowed events of its passes led to: what
    /// is done shows its receipt, and where all places are done the words are those of the
    /// one-at-a-time fold. What the pass saw done is done.
    pub fn close(self, pass: Pass) -> Words
        requires own { IsPassOf self pass }
        ensures ends { Ends (bank_scene self) result.items }
        ensures saw { let s = bank_scene self in
            (p : ℕ) → p < s.places → Has pass.view.seen p
            → slice_index result.items (state_word s p) ≡ 2 ^ 63 + status_at s p }
        ensures size { (result.words ≡ (bank_scene self).words)
            × (result.places ≡ (bank_scene self).places) }
    {
        let (closed, words, places) = self.shut(pass);
        Words {
            closed,
            words,
            places,
        }
    }
}

impl Words {
    /// A word of an account: its balance at an even number, its sequence number at an odd one.
    pub fn word(&self, x: usize) -> u64
        requires { x < self.now.words }
        ensures { result ≡ slice_index self.now.items x }
    {
        self.closed.word(x)
    }

    /// The state word of a place: 2^63 and the status where it is done.
    pub fn state_of(&self, place: u32) -> u64
        requires { place < self.now.places }
        ensures { result ≡ state_at self.now place }
    {
        self.closed.word(self.words + 2 * place as usize)
    }

    /// How much a place moved, where it is done.
    pub fn moved(&self, place: u32) -> u64
        requires { place < self.now.places }
        ensures { result ≡ moved_word_at self.now place }
    {
        self.closed.word(self.words + 2 * place as usize + 1)
    }

    /// The least place that is not done.
    pub fn first_unfinished(&self) -> Option<u32>
        ensures { MatchOption result (AllFinished self.now) (λ p. IsFirstUnfinished self.now p) }
    {
        for place in 0..self.places {
            if self.state_of(place as u32) < 1 << 63 {
                return Some(place as u32);
            }
        }
        None
    }
}

impl Drop for Words {
    fn drop(self) {
        let Words {
            closed,
            words: _,
            places: _,
        } = self;
        closed.free();
    }
}
