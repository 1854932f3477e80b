//! Tests of stores, of items and lists of them, and of nodes.
#![tactic(auto)]

#[cfg(test)]
mod any_store;
#[cfg(test)]
mod asserts;
#[cfg(test)]
mod callers;
#[cfg(test)]
mod counted;
#[cfg(test)]
mod items;
#[cfg(test)]
mod many;
#[cfg(test)]
mod nodes;
#[cfg(test)]
mod other_stores;
#[cfg(test)]
mod steps;
#[cfg(test)]
mod stores;
