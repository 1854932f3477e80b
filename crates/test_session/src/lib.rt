//! Tests of sessions and of the program over them.
#![tactic(auto)]

#[cfg(test)]
mod asserts;
#[cfg(test)]
mod command_line;
#[cfg(test)]
mod cursor;
#[cfg(test)]
mod lines;
#[cfg(test)]
mod session;
#[cfg(test)]
mod stores;
#[cfg(test)]
mod streams;
