//! Which links a picture shows.

ghost use Rattle.std.specs.Prelude.{◌≡◌, MatchOption, codes};
ghost use Rattle.clap.specs.Words.{first_value, found_of};
ghost use Rattle.bk_cli.specs.declared.links.Links.{Links};
ghost use Rattle.bk_cli.specs.Links.{AreLinksIn, LacksLinks, links_word};

use clap::ArgMatches;

/// Which links between certificates a picture shows.
#[derive(Clone, Copy, Debug, PartialEq, Eq)]
pub enum Links {
    /// Those to all parents.
    All,
    /// Those that are votes.
    Votes,
    /// None of them.
    Hidden,
}

// The links of a word, if it is one of the three.
fn links_of(word: &str) -> Option<Links>
    ensures { MatchOption result ((l : Links) → word.now ≡ links_word l → ⊥)
        (λ l. word.now ≡ links_word l) }
{
    if word == "all" {
        return Some(Links::All);
    }
    if word == "votes" {
        return Some(Links::Votes);
    }
    if word == "none" {
        return Some(Links::Hidden);
    }
    None
}

/// The links that `--links` names, none where it is left out. There is no answer where its value is none of the words.
pub(crate) fn links_in(found: &ArgMatches<'_>) -> Option<Option<Links>>
    ensures { MatchOption result (LacksLinks (first_value (found_of found.now) (codes "links")))
        (AreLinksIn (first_value (found_of found.now) (codes "links"))) }
{
    match found.get_str("links") {
        None => Some(None),
        Some(word) => match links_of(word) {
            Some(links) => Some(Some(links)),
            None => None,
        },
    }
}
