// Tests of the protocol's machine.

mod looks;
mod refusals;
mod runs;
mod scripts;
