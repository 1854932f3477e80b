//! Calls of a map, each from words and with a reply as words: for a program in which a line is a call.
#![tactic(auto)]

mod addresses;
mod cursors;
mod edits;
mod entries;
mod keys;
mod lists;
mod maps;
mod menu;
mod queries;
mod several;
mod walks;

pub use crate::lists::{numbers, pairs, put_left};
pub use crate::maps::serve_map;
pub use crate::menu::{Action, Pick, given, picks, read_pick};
pub use crate::queries::{Spot, read_spot};
pub use crate::several::put_map;
pub use crate::walks::{Yielded, put_all, walk, walk_known};
