//! A book: a text in which a line is one call of the library and, after an arrow, its reply.
//!
//! A program that speaks it implements `Desk`, and `serve` reads the lines. An address is a path from the root: `T` is the root, `T0` its
//! first child, `T02` the third child of that one, and `T02:3` the address there at offset 3.
#![tactic(auto)]

mod calls;
mod drawing;
mod lines;
mod places;
mod refusals;
mod repeats;
mod replies;
mod text;
mod words;

pub use crate::calls::Desk;
pub use crate::drawing::{draw, shape};
pub use crate::lines::{Desks, Ending, serve};
pub use crate::places::{address, node, offset, place, put_address, put_node};
pub use crate::repeats::nth;
pub use crate::text::Reply;
pub use crate::words::{high, low, number, pair, two_numbers, word};
