//! The ordered set.
#![tactic(auto)]

mod algebra;
mod comparison;
mod difference;
mod drain;
mod elements;
mod extension;
mod fmt;
mod intersection;
mod maps;
mod peeked;
mod set;
mod splitting;
mod symmetric_difference;
mod union;

pub use difference::Difference;
pub use drain::DrainFilter;
pub use elements::{IntoIter, Iter, Range};
pub use intersection::Intersection;
pub use set::BTreeSet;
pub use symmetric_difference::SymmetricDifference;
pub use union::Union;
