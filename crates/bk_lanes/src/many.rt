//! The digests of many messages, eight at a time.

ghost use Rattle.std.specs.Prelude.{◌≡◌, ℕ, ◌+◌, ◌<◌, ◌++◌, List, [], ◌∷◌, length, map, slice_index, slice_index_or, slice_set, Some, None, IfOk};
ghost use Rattle.std.specs.Option.{option_to_list};
ghost use Rattle.sha2.specs.Sha256.{sha256};
ghost use Rattle.bk_lanes.specs.private.Lanes.{bytes_of, digest_at, message_of};

use crate::message::{Message, Messages, message_at};
use crate::work::{begin, finish, idle, least};
use sha2::{Digest, Sha256};
use std::alloc::{AllocError, Allocator};

// Below this many messages the scalar hasher takes them one by one, since most lanes would be free.
// Lanes are faster from 2 messages on with AVX2, and from 5 or 6 on without it.
pub(crate) const FEW: usize = 4;

// The scalar digest of a message.
fn digest_of(message: &Message<'_>) -> [u8; 32]
    ensures { result ≡ sha256 (bytes_of message.now) }
{
    match message.first {
        None => Sha256::digest(message.bytes),
        Some(first) => digest_after(first, message.bytes),
    }
}

// The scalar digest of `first` and then the bytes.
pub(crate) fn digest_after(first: u8, bytes: &[u8]) -> [u8; 32]
    ensures { result ≡ sha256 (first ∷ bytes.now) }
{
    let mut hasher = Sha256::new();
    hasher.update([first]);
    hasher.update(bytes);
    hasher.finalize()
}

// The digests, one message after the other.
fn one_by_one(messages: &Messages<'_>, out: &mut [[u8; 32]])
    requires { length out.old ≡ length messages.now.bytes.now }
    ensures { out.new ≡ map
        (λ m. sha256 (option_to_list messages.now.first ++ m.now)) messages.now.bytes.now }
{
    'each: for k in 0..messages.bytes.len() {
        out[k] = digest_of(&message_at(messages, k));
    }
}

// The digests, in lanes. Each message begins in the lane that is free first, so that all lanes work
// until the messages run out, whatever their lengths.
fn side_by_side(messages: &Messages<'_>, out: &mut [[u8; 32]])
    requires { length out.old ≡ length messages.now.bytes.now }
    ensures room { length out.new ≡ length messages.now.bytes.now }
    ensures digests { (k : ℕ) → k < length messages.now.bytes.now → slice_index_or out.new k []
        ≡ digest_at (message_of k messages.now) }
{
    let mut work = idle();
    'messages: for k in 0..messages.bytes.len() {
        let lane = least(&work.left);
        finish(messages, &mut work, lane, out);
        begin(messages, &mut work, lane, k);
    }
    'rest: for lane in 0..8 {
        finish(messages, &mut work, lane, out);
    }
}

// The digests, in lanes where they are worth it.
fn each_into(messages: &Messages<'_>, out: &mut [[u8; 32]])
    requires { length out.old ≡ length messages.now.bytes.now }
    ensures { out.new ≡ map
        (λ m. sha256 (option_to_list messages.now.first ++ m.now)) messages.now.bytes.now }
{
    if messages.bytes.len() < FEW {
        one_by_one(messages, out);
    } else {
        side_by_side(messages, out);
    }
}

/// Writes the SHA-256 digest of each message to its place in `out`.
pub fn digest_each_into(messages: &[&[u8]], out: &mut [[u8; 32]])
    requires { length out.old ≡ length messages.now }
    ensures { out.new ≡ map (λ m. sha256 m.now) messages.now }
{
    let messages = Messages {
        first: None,
        bytes: messages,
    };
    each_into(&messages, out);
}

/// The SHA-256 digest of each message, in their order. It fails only where memory does.
pub fn digest_each<A: Allocator>(
    alloc: A,
    messages: &[&[u8]],
) -> Result<Vec<[u8; 32], A>, AllocError>
    ensures { IfOk result (λ digests. digests.items ≡ map (λ m. sha256 m.now) messages.now) }
{
    let mut digests = vec![in alloc; [0u8; 32]; messages.len()]?;
    digest_each_into(messages, &mut digests);
    Ok(digests)
}

/// Writes the SHA-256 digest of `first` and then each message to that message's place in `out`: the
/// byte says what kind of message is hashed.
pub fn tagged_each_into(first: u8, messages: &[&[u8]], out: &mut [[u8; 32]])
    requires { length out.old ≡ length messages.now }
    ensures { out.new ≡ map (λ m. sha256 (first ∷ m.now)) messages.now }
{
    let messages = Messages {
        first: Some(first),
        bytes: messages,
    };
    each_into(&messages, out);
}

/// The SHA-256 digest of `first` and then each message, in the messages' order. It fails only where
/// memory does.
pub fn tagged_each<A: Allocator>(
    alloc: A,
    first: u8,
    messages: &[&[u8]],
) -> Result<Vec<[u8; 32], A>, AllocError>
    ensures { IfOk result
        (λ digests. digests.items ≡ map (λ m. sha256 (first ∷ m.now)) messages.now) }
{
    let mut digests = vec![in alloc; [0u8; 32]; messages.len()]?;
    tagged_each_into(first, messages, &mut digests);
    Ok(digests)
}
