//! Tests of the rules of the protocol, of its steps, of scripts, and of the releases that readers look up, for what no
//! command shows.
#![tactic(auto)]

#[cfg(test)]
mod book;
#[cfg(test)]
mod replay;
#[cfg(test)]
mod rules;
#[cfg(test)]
mod steps;
