// Tests of the words that the parties of a run share.

mod calls;
mod meant;
mod sharing;
