//! Tests of documents, for what no command shows: names in refusals, headers, lines, times and releases of plans.
#![tactic(auto)]

#[cfg(test)]
mod expressions;
#[cfg(test)]
mod headers;
#[cfg(test)]
mod lines;
#[cfg(test)]
mod plans;
#[cfg(test)]
mod printing;
#[cfg(test)]
mod refusals;
#[cfg(test)]
mod slots;
