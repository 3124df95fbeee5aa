// Tests of the parties of a run.

mod runs;
mod turns;
