// The messages as the lanes read them: each may have a byte before its own bytes.

ghost use Rattle.std.specs.Prelude.{◌≡◌, ℕ, ◌+◌, ◌-◌, ◌*◌, ◌<◌, ◌≤◌, ◌^◌, ◌++◌, List, ◌∷◌, length, replicate, take, drop};
ghost use Rattle.bk_lanes.specs.private.Lanes.{bytes_of, message_of};

// One message: `first`, where there is such a byte, and then `bytes`.
#[derive(Clone, Copy)]
pub(crate) struct Message<'a> {
    pub(crate) first: Option<u8>,
    pub(crate) bytes: &'a [u8],
}

// Messages that all begin with the byte `first`, where there is one.
#[derive(Clone, Copy)]
pub(crate) struct Messages<'a> {
    pub(crate) first: Option<u8>,
    pub(crate) bytes: &'a [&'a [u8]],
}

// Message `k`.
pub(crate) fn message_at<'a>(messages: &Messages<'a>, k: usize) -> Message<'a>
    requires { k < length messages.now.bytes.now }
    ensures { bytes_of result ≡ message_of k messages.now }
{
    Message {
        first: messages.first,
        bytes: messages.bytes[k],
    }
}

// The number of the message's bytes.
#[inline(always)]
pub(crate) fn message_len(message: &Message<'_>) -> usize
    ensures value { result ≡ length (bytes_of message.now) }
    ensures room { result ≤ 2 ^ 63 }
{
    match message.first {
        None => message.bytes.len(),
        Some(_) => message.bytes.len() + 1,
    }
}

// The message without its first `at` blocks.
#[inline(always)]
pub(crate) fn rest_at<'a>(message: &Message<'a>, at: usize) -> Message<'a>
    requires { 64 * at ≤ length (bytes_of message.now) }
    ensures { bytes_of result ≡ drop (64 * at) (bytes_of message.now) }
{
    if at == 0 {
        return *message;
    }
    match message.first {
        None => Message {
            first: None,
            bytes: &message.bytes[64 * at..],
        },
        Some(_) => Message {
            first: None,
            bytes: &message.bytes[64 * at - 1..],
        },
    }
}

// Writes the first 64 bytes of the message.
#[inline(always)]
pub(crate) fn put_front(message: &Message<'_>, block: &mut [u8; 64])
    requires { 64 ≤ length (bytes_of message.now) }
    ensures { block.new ≡ take 64 (bytes_of message.now) }
{
    match message.first {
        None => put_front_alone(message.bytes, block),
        Some(first) => put_front_after(first, message.bytes, block),
    }
}

// Writes the first 64 of the bytes.
#[inline(always)]
fn put_front_alone(bytes: &[u8], block: &mut [u8; 64])
    requires { 64 ≤ length bytes.now }
    ensures { block.new ≡ take 64 bytes.now }
{
    block.copy_from_slice(&bytes[..64]);
}

// Writes `first` and the first 63 of the bytes.
#[inline(always)]
fn put_front_after(first: u8, bytes: &[u8], block: &mut [u8; 64])
    requires { 63 ≤ length bytes.now }
    ensures { block.new ≡ first ∷ take 63 bytes.now }
{
    block[0] = first;
    block[1..].copy_from_slice(&bytes[..63]);
}

// A message shorter than a block, the bit 1 and zeros.
pub(crate) fn ended(message: &Message<'_>) -> [u8; 64]
    requires { length (bytes_of message.now) < 64 }
    ensures { result ≡ bytes_of message.now ++ 0x80 ∷ replicate
        (63 - length (bytes_of message.now)) 0 }
{
    match message.first {
        None => ended_alone(message.bytes),
        Some(first) => ended_after(first, message.bytes),
    }
}

// The bytes, the bit 1 and zeros.
fn ended_alone(bytes: &[u8]) -> [u8; 64]
    requires { length bytes.now < 64 }
    ensures { result ≡ bytes.now ++ 0x80 ∷ replicate (63 - length bytes.now) 0 }
{
    let mut block = [0u8; 64];
    block[..bytes.len()].copy_from_slice(bytes);
    block[bytes.len()] = 0x80;
    block
}

// `first`, the bytes, the bit 1 and zeros.
fn ended_after(first: u8, bytes: &[u8]) -> [u8; 64]
    requires { length bytes.now < 63 }
    ensures { result ≡ first ∷ bytes.now ++ 0x80 ∷ replicate (62 - length bytes.now) 0 }
{
    let mut block = [0u8; 64];
    block[0] = first;
    block[1..bytes.len() + 1].copy_from_slice(bytes);
    block[bytes.len() + 1] = 0x80;
    block
}
