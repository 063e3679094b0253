//! Certificates by number, and when one of them is admitted.

ghost use Rattle.std.specs.Prelude.{◌≡◌, ◌<◌, length, All};
ghost use Rattle.std.specs.List.{list_all};
ghost use Rattle.bk_rounds.specs.private.Numbered.{IsInside, is_right_in, is_heavy_in, is_ready_in};

use crate::weights::Weights;
use bk_digest::Digest32;
use bk_index::Keyed;

/// An id that was met, as that of a certificate or as that of a parent. Its round is 0 until its
/// certificate is held.
#[derive(Drop)]
pub(crate) struct Slot {
    pub id: Digest32,
    pub round: u32,
    pub author: u8,
    // Where the certificate is among those that were added.
    pub cert: usize,
    pub parents: Vec<usize>,
}

impl Keyed for Slot {
    ghost key_of = { λ s. s.id };

    fn key(&self) -> &Digest32 {
        &self.id
    }
}

/// Whether nothing is missing for its admission.
pub(crate) fn is_ready(weights: &Weights, slots: &[Slot], marks: &[bool], number: usize) -> bool
    requires inside { number < length slots.now }
    requires parents { IsInside slots.now }
    requires same { length marks.now ≡ length slots.now }
    ensures { result ≡ is_ready_in weights.now slots.now marks.now number }
{
    let slot = &slots[number];
    if slot.round <= 1 {
        return slot.round == 1;
    }
    are_right(slots, marks, slot.round - 1, &slot.parents)
        && is_heavy(weights, slots, &slot.parents)
}

// Whether each of these is admitted, and of this round.
fn are_right(slots: &[Slot], marks: &[bool], round: u32, parents: &[usize]) -> bool
    requires inside { All (λ p. p < length slots.now) parents.now }
    requires same { length marks.now ≡ length slots.now }
    ensures { result ≡ list_all (λ p. is_right_in slots.now marks.now round p) parents.now }
{
    parents.iter().all(|p| is_right(slots, marks, round, *p))
}

// Whether it is admitted, and of this round.
fn is_right(slots: &[Slot], marks: &[bool], round: u32, number: usize) -> bool
    requires inside { number < length slots.now }
    requires same { length marks.now ≡ length slots.now }
    ensures { result ≡ is_right_in slots.now marks.now round number }
{
    marks[number] && slots[number].round == round
}

// Whether the authors of these weigh a quorum.
fn is_heavy(weights: &Weights, slots: &[Slot], parents: &[usize]) -> bool
    requires inside { All (λ p. p < length slots.now) parents.now }
    ensures { result ≡ is_heavy_in weights.now slots.now parents.now }
{
    let quorum = weights.quorum();
    let mut sum = 0;
    for p in parents {
        sum += weights.weight(slots[*p].author);
        if sum >= quorum {
            return true;
        }
    }
    false
}
