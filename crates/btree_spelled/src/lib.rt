//! Values as bytes: each is read again from the front of bytes that begin with its own.
#![tactic(auto)]

mod arrays;
mod more;
mod numbers;
mod signed;
mod spelled;
mod spelled_as;

pub use spelled::Spelled;
pub use spelled_as::SpelledAs;
