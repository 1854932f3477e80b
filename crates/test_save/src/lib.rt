//! Tests of saved maps.
#![tactic(auto)]

#[cfg(test)]
mod asserts;
#[cfg(test)]
mod hostile;
#[cfg(test)]
mod kinds;
#[cfg(test)]
mod linked;
#[cfg(test)]
mod maps;
#[cfg(test)]
mod ranges;
#[cfg(test)]
mod rounds;
#[cfg(test)]
mod rows;
#[cfg(test)]
mod spellings;
#[cfg(test)]
mod streams;
#[cfg(test)]
mod verdicts;
#[cfg(test)]
mod words;
