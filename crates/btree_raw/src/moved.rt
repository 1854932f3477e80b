//! The new address of what was at an address of a tree, after a step that changes the tree's nodes: arithmetic on addresses alone.
mod siblings;
mod split;
mod steps;

pub(crate) use siblings::Siblings;
pub(crate) use split::moved_by_split;
pub(crate) use steps::{
    moved_by_merge, moved_by_rotate_left, moved_by_rotate_right, moved_by_shrink_root,
};
