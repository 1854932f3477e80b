//! Tests of sets of ranges.
#![tactic(auto)]

#[cfg(test)]
mod asserts;
#[cfg(test)]
mod checks;
#[cfg(test)]
mod extension;
#[cfg(test)]
mod maps;
#[cfg(test)]
mod owned;
#[cfg(test)]
mod table;
#[cfg(test)]
mod two_sets;
