//! Which links between certificates are drawn.

ghost use Rattle.std.specs.Prelude.{◌≡◌};
ghost use Rattle.bk_picture.specs.Links.{links_for};

/// The most members between whose certificates all links are drawn where none are named.
pub const MOST_LINKED: u8 = 16;

/// Which links between certificates are drawn.
#[derive(Clone, Copy, Debug, PartialEq, Eq)]
pub enum Links {
    /// Those to all parents.
    All,
    /// Those to an anchor: the votes.
    Votes,
    /// None.
    Hidden,
}

/// The links that are drawn of so many members, where these are asked for.
pub(crate) fn links_of(asked: Option<Links>, members: u8) -> Links
    ensures { result ≡ links_for asked members }
{
    match asked {
        Some(links) => links,
        None if members <= MOST_LINKED => Links::All,
        None => Links::Votes,
    }
}
