//! Tests of simulation in virtual time, on one processor and on several.
#![tactic(auto)]

#[cfg(test)]
mod next_event;
#[cfg(test)]
mod simulations;
