//! Trees of any content, and the steps that change them: claims, splits, rotations, merges, and rebalancing.
#![tactic(auto)]

mod borrow;
mod claims;
mod insertion;
mod moved;
mod needs;
mod node_changes;
mod raw;
mod rebalance;
mod removal;
mod sibling_steps;
mod splits;
mod underflow;

pub use claims::{ClaimedIds, claim, claim_one, release};
pub use insertion::refused;
pub use needs::{need, need_above, split_need};
pub use node_changes::{NotAdded, add_item_at_leaf, add_item_in_room, put};
pub use raw::RawBTree;
pub use rebalance::{rebalance_fetched, rebalance_underflow};
pub use removal::take_last_below;
pub use splits::{add_and_split, split_upward};
pub use underflow::fix_underflow_upward;
