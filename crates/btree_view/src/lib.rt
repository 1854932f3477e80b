//! What nodes of both kinds share: how contracts see them, what calls leave of them, and how full one is.
#![tactic(auto)]

mod balance;
mod checks;
mod offset;

pub use balance::{Balance, WouldUnderflow};
pub use checks::check_node;
pub use offset::offset_at;
