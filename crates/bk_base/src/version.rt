ghost use Rattle.std.specs.Prelude.{◌≡◌, ◌≢◌, ◌∷◌, [], MatchOption};
ghost use Rattle.bk_base.specs.Feed.{magic};

/// The version of a feed, by the fourth byte of its magic.
#[derive(Clone, Copy, Debug, PartialEq, Eq)]
pub enum Version {
    /// `BKF1`: each member weighs 1, and the accounts are those of the opening.
    One = 1,
    /// `BKF2`: members have weights, and an account comes to be when it is first paid.
    Two = 2,
}

/// The first three bytes of each magic.
pub const MAGIC: [u8; 3] = *b"BKF";

/// The version whose magic has this fourth byte, `None` for every other byte.
pub fn version_of(byte: u8) -> Option<Version>
    ensures { MatchOption result ((byte ≢ 49) × (byte ≢ 50))
        (λ v. magic v ≡ 66 ∷ 75 ∷ 70 ∷ byte ∷ []) }
{
    match byte {
        b'1' => Some(Version::One),
        b'2' => Some(Version::Two),
        _ => None,
    }
}
