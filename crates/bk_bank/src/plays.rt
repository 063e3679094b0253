//! What a seat learns by each step.
ghost use Rattle.bk_bank.specs.Plays.{claimed, looked, has_read, has_written, has_moved, finished, released, rested, pooled, spent};

use crate::view::View;
use atomic_table::{Join, Play, Split};

pub(crate) struct Claim;

impl Play<(), View> for Claim {
    ghost then = { claimed };
}

pub(crate) struct Look;

impl Play<(), View> for Look {
    ghost then = { looked };
}

pub(crate) struct Read;

impl Play<(), View> for Read {
    ghost then = { has_read };
}

pub(crate) struct Write;

impl Play<(), View> for Write {
    ghost then = { has_written };
}

pub(crate) struct Move;

impl Play<(), View> for Move {
    ghost then = { has_moved };
}

pub(crate) struct Finish;

impl Play<(), View> for Finish {
    ghost then = { finished };
}

pub(crate) struct Release;

impl Play<(), View> for Release {
    ghost then = { released };
}

pub(crate) struct Cut;

impl Split<View> for Cut {
    ghost left = { rested };

    ghost right = { rested };
}

pub(crate) struct Glue;

impl Join<View> for Glue {
    ghost both = { pooled };

    ghost spent = { spent };
}
