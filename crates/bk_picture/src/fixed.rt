//! The fixed parts of a picture's text.

ghost use Rattle.std.specs.Prelude.{◌≡◌, ◌++◌, OnOk, string_bytes};
ghost use Rattle.bk_picture.specs.Fixed.{axes_text, desc_text, parent_sign, signs_text, style_text, thin_vote_sign, vote_sign};

use std::alloc::AllocError;

const DESC: &str = "<desc>A column for each round, a row for each member.\n\
    A full circle is a certificate of the order, an empty one is admitted and not in the order,\n\
    and one with a broken outline waits. Where there is no circle, it is absent \
    or rejected:\n\
    how many frames are rejected in the feed is said last, and `frames` says which.\n\
    A ring is round the place of the leader of an odd round: thick if the anchor is voted,\n\
    in long dashes if it is linked, in dots if it is skipped, thin if it is open.\n\
    A line leads to a parent of the round before; a thick one is a vote for an anchor.\n\
    Where the title says `votes alone`, each line is a vote, and thin.</desc>\n\
    ";

const STYLE: &str = "<style>\n\
    .b{fill:#fff}text{font:12px sans-serif;fill:#222;text-anchor:middle}\
    .k text,.h{text-anchor:start}\n\
    .a{font-style:italic}.l{fill:none;stroke:#888;stroke-width:.8;stroke-opacity:.6}\
    .v{fill:none;stroke:#a50;stroke-width:2.6}.t{stroke-width:.8}\n\
    .ordered{fill:#124;stroke:#124;stroke-width:2}.admitted{fill:#fff;stroke:#124;stroke-width:2}\n\
    .waiting{fill:#fff;stroke:#a50;stroke-width:1.6;stroke-dasharray:2.4 2.4}\n\
    .voted,.linked,.skipped,.open{fill:none;stroke:#222}.voted{stroke-width:2.4}\n\
    .linked{stroke-width:2.4;stroke-dasharray:8 4}\
    .skipped{stroke-width:2.4;stroke-dasharray:1.5 4}.open{stroke-width:.9}\n\
    @media(prefers-color-scheme:dark){.b{fill:#15181c}text{fill:#ddd}.l{stroke:#889}\
    .v{stroke:#e94}\n\
    .ordered{fill:#9cf;stroke:#9cf}.admitted{fill:#15181c;stroke:#9cf}\
    .waiting{fill:#15181c;stroke:#e94}\n\
    .voted,.linked,.skipped,.open{stroke:#ddd}}\n\
    </style>\n\
    <rect class='b' width='100%' height='100%'/>\n\
    ";

const AXES: &str = "<text class='a' x='60' y='40'>round</text>\n\
    <text class='a' transform='translate(12 82) rotate(-90)'>member</text>\n\
    ";

const SIGNS: &str = "<circle class='ordered' r='6'/><text x='18' y='4'>ordered</text>\n\
    <circle class='admitted' cy='24' r='6'/><text x='18' y='28'>admitted</text>\n\
    <circle class='waiting' cy='48' r='6'/><text x='18' y='52'>waiting</text>\n\
    <circle class='voted' cx='120' r='10'/><text x='138' y='4'>voted</text>\n\
    <circle class='linked' cx='120' cy='24' r='10'/><text x='138' y='28'>linked</text>\n\
    <circle class='skipped' cx='120' cy='48' r='10'/><text x='138' y='52'>skipped</text>\n\
    <circle class='open' cx='120' cy='72' r='10'/><text x='138' y='76'>open</text>\n\
    ";

const VOTE: &str = "<path class='v' d='M230 0h24'/><text x='262' y='4'>vote</text>\n";

const THIN_VOTE: &str = "<path class='v t' d='M230 0h24'/><text x='262' y='4'>vote</text>\n";

const PARENT: &str = "<path class='l' d='M230 24h24'/><text x='262' y='28'>parent</text>\n";

/// Adds what the signs mean.
#[tactic(auto, unfolding(crate::specs::Fixed::desc_text))]
pub(crate) fn push_desc(text: &mut String) -> Result<(), AllocError>
    ensures { OnOk result (string_bytes text.new ≡ string_bytes text.old ++ desc_text) }
{
    text.push_str(DESC)?;
    Ok(())
}

/// Adds the style sheet and the background.
#[tactic(auto, unfolding(crate::specs::Fixed::style_text))]
pub(crate) fn push_style(text: &mut String) -> Result<(), AllocError>
    ensures { OnOk result (string_bytes text.new ≡ string_bytes text.old ++ style_text) }
{
    text.push_str(STYLE)?;
    Ok(())
}

/// Adds the names of the axes.
#[tactic(auto, unfolding(crate::specs::Fixed::axes_text))]
pub(crate) fn push_axes(text: &mut String) -> Result<(), AllocError>
    ensures { OnOk result (string_bytes text.new ≡ string_bytes text.old ++ axes_text) }
{
    text.push_str(AXES)?;
    Ok(())
}

/// Adds the signs of the key that are circles.
#[tactic(auto, unfolding(crate::specs::Fixed::signs_text))]
pub(crate) fn push_signs(text: &mut String) -> Result<(), AllocError>
    ensures { OnOk result (string_bytes text.new ≡ string_bytes text.old ++ signs_text) }
{
    text.push_str(SIGNS)?;
    Ok(())
}

/// Adds the sign of a vote.
#[tactic(auto, unfolding(crate::specs::Fixed::vote_sign))]
pub(crate) fn push_vote_sign(text: &mut String) -> Result<(), AllocError>
    ensures { OnOk result (string_bytes text.new ≡ string_bytes text.old ++ vote_sign) }
{
    text.push_str(VOTE)?;
    Ok(())
}

/// Adds the sign of a vote where no other lines are drawn.
#[tactic(auto, unfolding(crate::specs::Fixed::thin_vote_sign))]
pub(crate) fn push_thin_vote_sign(text: &mut String) -> Result<(), AllocError>
    ensures { OnOk result (string_bytes text.new ≡ string_bytes text.old ++ thin_vote_sign) }
{
    text.push_str(THIN_VOTE)?;
    Ok(())
}

/// Adds the sign of a line to a parent.
#[tactic(auto, unfolding(crate::specs::Fixed::parent_sign))]
pub(crate) fn push_parent_sign(text: &mut String) -> Result<(), AllocError>
    ensures { OnOk result (string_bytes text.new ≡ string_bytes text.old ++ parent_sign) }
{
    text.push_str(PARENT)?;
    Ok(())
}
