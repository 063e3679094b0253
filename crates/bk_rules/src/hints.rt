//! A table with a likely index of each id.

ghost use Rattle.std.specs.Prelude.{◌≡◌, ℕ, ◌<◌, IfSome, length, slice_index};

use sha2::{Digest, Sha256};
use std::alloc::{AllocError, Global};

// A slot that holds no hint: there are never so many ids.
const EMPTY: u32 = u32::MAX;

// How many slots from an id's own one on are looked at before the ids are searched.
const MOST_TRIES: usize = 16;

// 2^64 over the golden ratio: ids in sequence, or with a common stride, fall on slots far apart.
const SPREAD: u64 = 0x9e37_79b9_7f4a_7c15;

// Where more than one id in so many finds no slot near its own, they were chosen to meet. Of ids at random it is one in
// two hundred at most.
const MEETING: usize = 32;

// A table with a likely index of each id, so that most look-ups read one slot and one id.
//
// A slot holds an index in its low bits, and above it bits of the hash of the id there: a slot of another id is
// passed over, in most cases, and that id is not read.
//
// An index is believed only where the id is there, and else the ids are searched. So no result depends on the
// slots, and no contract speaks of them.
//
// Whoever knows `SPREAD` can choose ids that all fall on one slot. Against that the ids are mixed with a key that is
// taken from a digest of all of them, so that it is not known before the last of them is chosen. The key is 0 where
// the ids do not meet without it. Ids that join others are tried with the key of those first.
#[derive(Debug, Drop)]
pub(crate) struct Hints {
    slots: Vec<u32>,
    // The top bits of a hash, all but so many, are the number of its home slot.
    shift: u32,
    // The bits of a slot that are its index.
    mask: u32,
    key: u64,
}

// Where an id's hint is likely to be, and what it holds above its index.
#[derive(Clone, Copy)]
struct Home {
    slot: usize,
    tag: u32,
}

impl Hints {
    // Hints for these ids: four bytes a slot, and at most three slots an id and a few. The key is 0, or that of hints of
    // some of the ids.
    pub(crate) fn new(alloc: Global, ids: &[u64], key: u64) -> Result<Hints, AllocError> {
        let slots = ids.len().saturating_add(ids.len() / 2).max(1);
        let shift = (slots as u64).leading_zeros();
        let most = u64::MAX.wrapping_shr(shift) as usize;
        let mut hints = Hints {
            slots: vec![in alloc; EMPTY; most.saturating_add(MOST_TRIES)]?,
            shift,
            mask: mask_of(ids.len()),
            key,
        };
        if !hints.keep_all(ids, ids.len() / MEETING) {
            hints.slots.fill(EMPTY);
            hints.key = key_of(ids);
            hints.keep_all(ids, usize::MAX);
        }
        Ok(hints)
    }

    // No hints: each look-up searches the ids.
    pub(crate) fn none(alloc: Global) -> Hints {
        Hints {
            slots: Vec::new(alloc),
            shift: 0,
            mask: u32::MAX,
            key: 0,
        }
    }

    // The key with which ids are mixed, or 0.
    pub(crate) fn key(&self) -> u64 {
        self.key
    }

    // The slot where an id's hint is, if that was free when it was put there.
    fn home(&self, id: u64) -> Home {
        let spread = id.wrapping_mul(SPREAD);
        let spread = if self.key == 0 {
            spread
        } else {
            mixed(spread ^ self.key)
        };
        let below = spread.wrapping_shl(64u32.wrapping_sub(self.shift)) >> 32;
        Home {
            slot: spread.wrapping_shr(self.shift) as usize,
            tag: u32::try_from(below).unwrap_or(0) & !self.mask,
        }
    }

    // Puts the hints of the ids into free slots, and gives up where more than so many find none.
    fn keep_all(&mut self, ids: &[u64], most: usize) -> bool {
        let mut lost = 0usize;
        for (index, id) in ids.iter().enumerate() {
            let kept = match u32::try_from(index) {
                Ok(index) => self.keep(*id, index),
                Err(_) => false,
            };
            if !kept {
                lost = lost.saturating_add(1);
                if lost > most {
                    return false;
                }
            }
        }
        true
    }

    // Puts a hint into the first free slot, if one is near enough.
    fn keep(&mut self, id: u64, index: u32) -> bool {
        let home = self.home(id);
        for step in 0..MOST_TRIES {
            let slot = home.slot.saturating_add(step);
            if self.slots.get(slot) == Some(&EMPTY) {
                self.slots[slot] = index | home.tag;
                return true;
            }
        }
        false
    }

    // The index of an id, if a hint leads there.
    pub(crate) fn guess(&self, ids: &[u64], id: u64) -> Option<usize>
        ensures { IfSome result (λ k. (k < length ids.now) × (slice_index ids.now k ≡ id)) }
    {
        let home = self.home(id);
        for slot in self.slots.get(home.slot..)?.iter().take(MOST_TRIES) {
            if *slot == EMPTY {
                return None;
            }
            let likely = *slot ^ home.tag;
            if likely <= self.mask {
                let index = likely as usize;
                if ids.get(index) == Some(&id) {
                    return Some(index);
                }
            }
        }
        None
    }

    // A likely index of an id: what its own slot or the next one says, whatever is at that index.
    //
    // Both are read, so that there is no branch to be guessed wrong. What belongs to another id is past all ids.
    pub(crate) fn slot(&self, id: u64) -> u32 {
        let home = self.home(id);
        let (first, second) = match self.slots.get(home.slot..) {
            Some([first, second, ..]) => (*first ^ home.tag, *second ^ home.tag),
            _ => (EMPTY, EMPTY),
        };
        if first <= self.mask { first } else { second }
    }

    // The same of each of these ids, in their order.
    pub(crate) fn list_slots(&self, ids: &[u64], slots: &mut [u32]) {
        for (slot, id) in slots.iter_mut().zip(ids) {
            *slot = self.slot(*id);
        }
    }
}

// The bits that any index of so many ids has. No index has all of them, so that no hint is `EMPTY`.
fn mask_of(count: usize) -> u32 {
    match u32::try_from(count) {
        Ok(count) => u32::MAX.wrapping_shr(count.max(1).leading_zeros()),
        Err(_) => u32::MAX,
    }
}

// Mixes all bits with all others (the last steps of MurmurHash3).
fn mixed(bits: u64) -> u64 {
    let bits = (bits ^ (bits >> 33)).wrapping_mul(0xff51_afd7_ed55_8ccd);
    let bits = (bits ^ (bits >> 33)).wrapping_mul(0xc4ce_b9fe_1a85_ec53);
    bits ^ (bits >> 33)
}

// The first eight bytes of the SHA-256 of all ids.
fn key_of(ids: &[u64]) -> u64 {
    let mut hasher = Sha256::new();
    for id in ids {
        hasher.update(&id.to_be_bytes());
    }
    let [a, b, c, d, e, f, g, h, ..] = hasher.finalize();
    u64::from_be_bytes([a, b, c, d, e, f, g, h])
}
