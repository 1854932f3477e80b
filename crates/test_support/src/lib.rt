//! What tests use: an allocator that refuses one chosen allocation, stores that refuse one chosen insertion and that count how often they
//! are asked for each value, a key that counts how often it is compared, how often a search promises to compare one, a hundred listed pairs,
//! and the whole content of a tree as text.
#![tactic(auto)]

mod asked;
mod content;
mod counted;
mod pairs;
mod promised;
mod refusing;
mod store;

pub use crate::asked::{Asked, AskedStore};
pub use crate::content::content_of;
pub use crate::counted::Counted;
pub use crate::pairs::listed_pairs;
pub use crate::promised::{COMPARISONS, promised_comparisons};
pub use crate::refusing::Refusing;
pub use crate::store::RefusingStore;
