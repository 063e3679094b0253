// Blocks of two halves, for the lanes.

ghost use Rattle.std.specs.Prelude.{◌≡◌, ◌++◌};

// The bytes of `left` and then those of `right`.
#[inline(always)]
pub(crate) fn joined(left: &[u8; 32], right: &[u8; 32]) -> [u8; 64]
    ensures { result ≡ left.now ++ right.now }
{
    let mut block = [0u8; 64];
    block[..32].copy_from_slice(left);
    block[32..].copy_from_slice(right);
    block
}
