//! What of a feed a picture shows.

ghost use Rattle.std.specs.Prelude.{◌≡◌, ◌≤◌};
ghost use Rattle.bk_cli.specs.Windows.{window};

use crate::links::Links;
use std::marker::Model;

/// The greatest round with which a picture can begin.
pub(crate) const MOST_FROM: u32 = 1_000_000;

/// The greatest number of rounds in a picture.
pub(crate) const MOST_ROUNDS: u32 = 1_000;

/// What a picture shows: the first round, 1 to 1,000,000, how many rounds, 1 to 1,000, and which links, if they are named.
#[derive(Clone, Copy, Debug)]
pub struct Window {
    from: u32,
    rounds: u32,
    links: Option<Links>,
}

impl Model for Window {
    ghost use Rattle.std.specs.Prelude.{◌≤◌};
    ghost use Rattle.bk_cli.specs.Windows.{WindowValue, window};

    ghost Value = { WindowValue };

    ghost view = { λ w. window w.from w.rounds w.links };

    ghost inverse = { λ v. record { from = v.from; rounds = v.rounds; links = v.links } };

    ghost invariant = { λ w. (1 ≤ w.from) × (w.from ≤ 1000000) × (1 ≤ w.rounds) × (w.rounds ≤ 1000) };
}

impl Window {
    /// As many rounds from this one on, with these links.
    pub(crate) fn new(from: u32, rounds: u32, links: Option<Links>) -> Window
        requires from { (1 ≤ from) × (from ≤ MOST_FROM) }
        requires rounds { (1 ≤ rounds) × (rounds ≤ MOST_ROUNDS) }
        ensures { result ≡ window from rounds links }
    {
        Window {
            from,
            rounds,
            links,
        }
    }

    /// The first round.
    pub fn from(self) -> u32
        ensures value { result ≡ self.from }
        ensures fit { (1 ≤ result) × (result ≤ 1000000) }
    {
        self.from
    }

    /// How many rounds they are.
    pub fn rounds(self) -> u32
        ensures value { result ≡ self.rounds }
        ensures fit { (1 ≤ result) × (result ≤ 1000) }
    {
        self.rounds
    }

    /// Which links, if they are named.
    pub fn links(self) -> Option<Links>
        ensures { result ≡ self.links }
    {
        self.links
    }
}
