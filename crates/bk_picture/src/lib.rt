//! A picture of some rounds of a feed, up to its last one: its certificates, the links to their parents, and what became
//! of the anchors.
//!
//! [`picture_of`] finds what is drawn, a column for each round and in it a cell for each member. [`svg_of`] makes the
//! text of a picture. [`Draw`] is the answer of a feed that writes it.
#![tactic(auto)]

mod cells;
mod columns;
mod drawing;
mod fixed;
mod head;
mod last;
mod lines;
mod links;
mod marks;
mod picture;
mod svg;
mod words;

pub use drawing::Draw;
pub use links::{Links, MOST_LINKED};
pub use picture::{Cell, Circle, Class, Column, Picture, picture_of};
pub use svg::svg_of;
