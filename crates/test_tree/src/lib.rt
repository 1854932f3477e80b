//! Tests of the calls of a tree: how often they compare keys, and how many addresses a visit passes.
#![tactic(auto)]

#[cfg(test)]
mod asserts;
#[cfg(test)]
mod counted;
#[cfg(test)]
mod visits;
