//! Tests of real tasks over shared words: the words, the parties of a run, and their crews.
#![tactic(auto)]

#[cfg(test)]
mod crew;
#[cfg(test)]
mod party;
#[cfg(test)]
mod word;
