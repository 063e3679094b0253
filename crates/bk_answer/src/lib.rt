//! What a feed answers, whatever is asked of it: what was made of a feed that ended, and the text that is written of it.
//!
//! An [`Answer`] and a [`TextAnswer`] read a [`Closed`] feed, whose batches were executed, an [`OrderAnswer`] a
//! [`ClosedOrder`], of which only the order was found, and a [`FrameAnswer`] what was taken of the frames of a feed, which
//! may be stopped. Each says by a relation which texts answer it. All but an [`Answer`], which writes a text that may be
//! long, make their text whole. The runners of `bk_follow` read a feed to its end, close it, and write.
#![tactic(auto)]

mod answer;
mod closed;
mod report;
mod strict;

pub use answer::{Answer, AtOnce, FrameAnswer, OrderAnswer, TextAnswer};
pub use closed::{Closed, ClosedOrder};
pub use report::Report;
pub use strict::{Ended, Judged};
