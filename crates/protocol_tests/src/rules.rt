// Tests of the rules of the protocol.

mod comparing;
mod starts;
mod words;
