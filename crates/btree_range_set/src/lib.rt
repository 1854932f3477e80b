//! Sets of numbers as disjoint ranges over an ordered map.
#![tactic(auto)]

mod algebra;
mod comparison;
mod counts;
mod edits;
mod extension;
mod fits;
mod fmt;
mod gaps;
mod iter;
mod maps;
mod overlapping;
mod owned;
mod queries;
mod set;

pub use gaps::Gaps;
pub use iter::Iter;
pub use overlapping::Overlapping;
pub use owned::IntoIter;
pub use set::RangeSet;
