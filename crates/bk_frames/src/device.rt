ghost use Rattle.std.specs.Prelude.{◌≡◌, ◌<◌, ◌≤◌, length, IfOk};
ghost use Rattle.std.specs.Io.KnownBytes.{WriteAppends};
ghost use Rattle.bk_frames.specs.Device.{Device, CanBeUsed, Counts, OnePull};

/// A call of a device failed. Its count of failures says so.
#[derive(Clone, Copy, Debug, PartialEq, Eq)]
pub struct Failed;

/// Where bytes come from.
pub trait Source {
    // The bytes that are still to come, where they are known, those that came and the ends, and how many calls have failed.
    ghost state: { Self → Device };

    /// Moves bytes into the front of `buf` and returns how many: 0 for a slice that is not empty is the end.
    /// A failed call moves nothing and counts as one failure.
    fn pull(&mut self, buf: &mut [u8]) -> Result<usize, Failed>
        requires { CanBeUsed (state self.old) }
        ensures bound { IfOk result (λ n. n ≤ length buf.new) }
        ensures bytes { OnePull (state self.old) (state self.new) result buf.new }
        ensures count { Counts (state self.old) (state self.new) result };

    /// How many calls have failed so far.
    fn failures(&self) -> u64
        ensures { result ≡ (state self.now).failures };
}

/// Where bytes go.
pub trait Sink {
    // The bytes that it holds, where they are known, and how many calls have failed.
    ghost state: { Self → Device };

    /// Takes bytes from the front of `bytes` and returns how many: at least one of a slice that is not empty.
    /// A failed call takes nothing and counts as one failure.
    fn push(&mut self, bytes: &[u8]) -> Result<usize, Failed>
        requires { CanBeUsed (state self.old) }
        ensures bound { IfOk result (λ n. n ≤ length bytes.now) }
        ensures moves { IfOk result (λ n. 0 < length bytes.now → 0 < n) }
        ensures bytes { WriteAppends (state self.old).bytes
            (state self.new).bytes result bytes.now }
        ensures count { Counts (state self.old) (state self.new) result };

    /// How many calls have failed so far.
    fn failures(&self) -> u64
        ensures { result ≡ (state self.now).failures };
}
