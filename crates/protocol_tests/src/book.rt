// Tests of the releaser's book.

mod runs;
mod turns;
