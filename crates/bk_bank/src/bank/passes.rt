//! What a pass can do: look, take a place, be split and joined.
ghost use Rattle.std.specs.Prelude.{◌≡◌, ◌≢◌, ℕ, ◌+◌, ◌*◌, ◌^◌, ◌<◌, ◌≤◌, [], length, IfOk, IfErr, false};
ghost use Rattle.bk_bank.specs.declared.view.Stage.TheVariants.{Holding};
ghost use Rattle.bk_bank.specs.Rule.{state_word};
ghost use Rattle.bk_bank.specs.Plays.{Grows, Learns, SawEarlier, rested, pooled};
ghost use Rattle.bk_bank.specs.Bank.{bank_scene, IsPassOf, IsHoldOf};

use super::{Bank, Hold, Pass};
use crate::plays::{Claim, Cut, Glue, Look};
use crate::setting::word_count;

// The state word of a place that a worker holds.
pub(super) const HELD: u64 = 1 << 62;

// The state word of a place that is done, but for its status.
pub(super) const DONE: u64 = 1 << 63;

impl Bank {
    /// The number of places.
    pub fn len(&self) -> usize
        ensures { result ≡ (bank_scene self.now).places }
    {
        self.plan.len()
    }

    // The state word of a place.
    pub(super) fn state_word(&self, place: u32) -> usize
        requires { place < (bank_scene self.now).places }
        ensures word { result ≡ state_word (bank_scene self.now) place }
        ensures inside { result + 1 < self.now.table.words }
    {
        word_count(&self.plan) + 2 * place as usize
    }

    /// Two passes in the place of one. Both know what it knew.
    pub fn split(&self, pass: Pass) -> (Pass, Pass)
        requires own { IsPassOf self.now pass }
        ensures own { IsPassOf self.now result.0 × IsPassOf self.now result.1 }
        ensures view { (result.0.view ≡ rested pass.view) × (result.1.view ≡ rested pass.view) }
    {
        let Pass { mut seat } = pass;
        let other = self.table.shared.split_seat::<Cut>(&mut seat);
        (Pass { seat }, Pass { seat: other })
    }

    /// One pass in the place of two. It knows what both knew.
    pub fn join(&self, pass: Pass, other: Pass) -> Pass
        requires own { IsPassOf self.now pass }
        requires other { IsPassOf self.now other }
        ensures own { IsPassOf self.now result }
        ensures view { result.view ≡ pooled pass.view other.view }
    {
        let Pass { mut seat } = pass;
        let Pass { seat: more } = other;
        self.table.shared.join_seat::<Glue>(&mut seat, more);
        Pass { seat }
    }

    /// Takes a place, by one exchange of 0 for 2^62. Then each earlier place in conflict with it
    /// was seen done. A refusal gives the pass back with the word that it saw, which is not 0.
    pub fn claim(&self, pass: Pass, place: u32) -> Result<Hold, (Pass, u64)>
        requires own { IsPassOf self.now pass }
        requires place { place < (bank_scene self.now).places }
        ensures own { IfOk result (λ h. IsHoldOf self.now h × (h.place ≡ place)) }
        ensures hold { IfOk result (λ h. h.view.stage ≡ Holding place [] [] false) }
        ensures grows { IfOk result (λ h. Grows pass.view h.view) }
        ensures earlier { IfOk result (λ h. SawEarlier h.view place) }
        ensures refused { IfErr result (λ r. IsPassOf self.now r.0 × (r.1 ≢ 0)) }
        ensures shown { IfErr result (λ r. Learns pass.view r.0.view place r.1) }
    {
        let word = self.state_word(place);
        let Pass { mut seat } = pass;
        let found = self
            .table
            .shared
            .compare_exchange::<Claim>(&mut seat, word, 0, HELD);
        if found == 0 {
            Ok(Hold { seat, place })
        } else {
            Err((Pass { seat }, found))
        }
    }

    /// The state word of a place: how many places it waits for, 2^62 where it is held, or 2^63 and
    /// the status where it is done. What a pass saw done it sees at each later look.
    pub fn look(&self, pass: &mut Pass, place: u32) -> u64
        requires own { IsPassOf self.now pass.old }
        requires place { place < (bank_scene self.now).places }
        ensures own { IsPassOf self.now pass.new }
        ensures shown { Learns pass.old.view pass.new.view place result }
    {
        let word = self.state_word(place);
        self.table.shared.load::<Look>(&mut pass.seat, word)
    }
}
