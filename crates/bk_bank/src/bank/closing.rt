//! The end of a bank.
ghost use Rattle.std.specs.Prelude.{◌≡◌, ℕ, ◌+◌, ◌*◌, ◌^◌, ◌<◌, slice_index};
ghost use Rattle.std.specs.Mem.Slots.{slots_items, slots_len, IsFull};
ghost use Rattle.bk_conflicts.specs.Scene.{status_at};
ghost use Rattle.bk_steps.specs.Course.{Has};
ghost use Rattle.bk_bank.specs.Rule.{state_word};
ghost use Rattle.bk_bank.specs.Steps.{Ends};
ghost use Rattle.bk_bank.specs.Bank.{bank_scene, IsPassOf};
ghost use Rattle.bk_bank.specs.private.Closing.{IsClosed};

use super::{Bank, Pass};
use crate::setting::word_count;
use atomic_table::Closed;
use std::alloc::Global;

impl Bank {
    // The words, and how many of them are those of accounts, and the number of places.
    pub(crate) fn shut(self, pass: Pass) -> (Closed<(), Global>, usize, usize)
        requires own { IsPassOf self pass }
        ensures ends { Ends (bank_scene self) (slots_items result.0.words) }
        ensures saw { let s = bank_scene self in
            (p : ℕ) → p < s.places → Has pass.view.seen p
            → slice_index (slots_items result.0.words) (state_word s p) ≡ 2 ^ 63 + status_at s p }
        ensures words { result.1 ≡ (bank_scene self).words }
        ensures places { result.2 ≡ (bank_scene self).places }
        ensures full { IsFull result.0.words }
        ensures whole { IsClosed (slots_len result.0.words) (slots_len result.0.slots)
            result.1 result.2 }
    {
        let Pass { seat } = pass;
        let Bank { table, plan } = self;
        let words = word_count(&plan);
        let places = plan.len();
        (table.close_with(seat), words, places)
    }
}
