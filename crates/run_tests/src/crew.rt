// Tests of crews.

mod gates;
mod paces;
pub(crate) mod runs;
