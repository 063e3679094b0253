//! How many there are of what the frames hold.

ghost use Rattle.std.specs.Prelude.{◌≡◌, ◌+◌, ◌<◌, ◌^◌};
ghost use Rattle.bk_order.specs.private.Tallies.{Counts};

/// How many things of a kind there are.
#[derive(Clone, Copy, Debug, PartialEq, Eq)]
pub struct Count {
    /// All of them.
    pub all: u64,
    /// Their names, each once.
    pub names: u64,
}

/// How many there are of what the frames hold.
#[derive(Clone, Copy, Debug, PartialEq, Eq)]
pub struct Tally {
    /// Certificates, good or not.
    pub certs: u64,
    /// Those that break no rule, and their ids.
    pub good: Count,
    /// Batches, and their digests.
    pub batches: Count,
}

/// One more. There are fewer frames than 2^64.
pub(crate) fn one_more(count: u64) -> u64
    ensures { count + 1 < 2 ^ 64 → result ≡ count + 1 }
{
    count.saturating_add(1)
}

impl Count {
    /// With one more, whose name is new or not.
    pub(crate) fn with(self, new: bool) -> Count
        ensures { Counts new self result }
    {
        Count {
            all: one_more(self.all),
            names: if new {
                one_more(self.names)
            } else {
                self.names
            },
        }
    }
}
