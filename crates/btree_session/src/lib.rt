//! Commands over a map from `u64` to `u64`, each with its reply, and the lines of text that express them.
//!
//! [`run`] takes commands as values. [`drive`] reads them as lines from any reader and writes their replies to any
//! writer. [`setup`] reads the arguments of the program.
#![tactic(auto)]

mod arguments;
mod command;
mod cursor;
mod driver;
mod line;
mod options;
mod question;
mod session;
mod text;

pub use arguments::setup;
pub use command::{Command, Reply};
pub use cursor::{CursorStep, run_cursor};
pub use driver::{Stop, drive};
pub use options::Setup;
pub use session::{Session, SessionOver, run};
