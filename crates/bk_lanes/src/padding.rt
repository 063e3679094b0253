// The blocks of a padded message (FIPS 180-4, 5.1.1).

ghost use Rattle.std.specs.Prelude.{◌≡◌, ℕ, ◌+◌, ◌*◌, ◌/◌, ◌%◌, ◌<◌, ◌≤◌, ◌^◌, ◌++◌, List, length, take};
ghost use Rattle.std.specs.Int.{w64, to_be_bytes};
ghost use Rattle.bk_lanes.specs.private.Lanes.{block_count, bytes_of, padded_block};

use crate::message::{Message, ended, message_len, put_front, rest_at};

// The number of blocks that a message fills with its padding.
pub(crate) fn block_count(message: &Message<'_>) -> usize
    ensures { result ≡ block_count (length (bytes_of message.now)) }
{
    (message_len(message) + 72) / 64
}

// Writes the length in bits of `len` bytes to the end of the last block.
fn put_length(block: &mut [u8; 64], len: usize)
    ensures { block.new ≡ take 56 block.old ++ to_be_bytes w64 (len * 8 % 2 ^ 64) }
{
    block[56..].copy_from_slice(&(len as u64).wrapping_mul(8).to_be_bytes());
}

// Writes block `at` of the message and its padding.
#[inline(always)]
pub(crate) fn put_block(message: &Message<'_>, at: usize, block: &mut [u8; 64])
    requires { at < block_count (length (bytes_of message.now)) }
    ensures { block.new ≡ padded_block (bytes_of message.now) at }
{
    if at < message_len(message) / 64 {
        put_front(&rest_at(message, at), block);
    } else {
        *block = last_block(message, at);
    }
}

// Block `at` of the message and its padding, one of those with the padding.
fn last_block(message: &Message<'_>, at: usize) -> [u8; 64]
    requires low { length (bytes_of message.now) / 64 ≤ at }
    requires high { at < block_count (length (bytes_of message.now)) }
    ensures { result ≡ padded_block (bytes_of message.now) at }
{
    let len = message_len(message);
    let mut block = if at == len / 64 {
        ended(&rest_at(message, at))
    } else {
        [0u8; 64]
    };
    if at + 1 == block_count(message) {
        put_length(&mut block, len);
    }
    block
}
