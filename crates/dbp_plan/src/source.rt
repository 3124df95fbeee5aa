// Where bytes come from, and the source over a reader of std's.

ghost use Rattle.std.specs.Prelude.{◌≡◌, ℕ, ◌<◌, List, length, Option};
ghost use Rattle.dbp_plan.specs.Source.{CountsEnd, GivesBytes, GivesCause};

use std::io;

/// What a read gives.
#[derive(Clone, Copy, Debug, PartialEq, Eq)]
pub enum Got {
    /// So many bytes, at least one, at the beginning of the buffer.
    Bytes(usize),
    /// Nothing is left.
    End,
    /// The read failed, and what is left stayed.
    Failed,
}

/// Where bytes come from: a file, a pipe, a text in memory.
pub trait Source {
    /// The bytes still to come, if the source says them.
    ghost left: { Self → Option (List ℕ) };

    /// How often the source has failed. The count never falls.
    ghost faults: { Self → ℕ };

    /// How often the source has said that nothing is left. The count never falls.
    ghost ends: { Self → ℕ };

    /// Reads some bytes to the beginning of the buffer. The first bytes of the buffer are the first of what was
    /// left. It fails only if the count of faults rose, or stands at its last value.
    fn read(&mut self, buf: &mut [u8]) -> Got
        requires { 0 < length buf.old }
        ensures bytes { GivesBytes (left self.old) (left self.new) buf.new result }
        ensures cause { GivesCause (faults self.old) (faults self.new) result }
        ensures ended { CountsEnd (ends self.old) (ends self.new) result };
}

/// A source over a reader of std's, as a file or a pipe. It says of its bytes what the reader says, which for
/// a file or a pipe is nothing. Its counts of faults and of ends are numbers of 64 bits that stay at their last value.
#[derive(Drop)]
pub struct ReadSource<R> {
    reader: R,
    failed: u64,
    ended: u64,
}

impl<R: io::Read> ReadSource<R> {
    ghost use Rattle.dbp_plan.specs.ReadSource.{read_failures, read_ends, inner_reader, got_of, failures_after_read};

    /// A source over the reader, which hasn't failed yet.
    pub fn new(reader: R) -> ReadSource<R>
        ensures faults { read_failures result ≡ 0 }
        ensures ends { read_ends result ≡ 0 }
        ensures reader { inner_reader result ≡ reader }
    {
        ReadSource {
            reader,
            failed: 0,
            ended: 0,
        }
    }

    // What the reader returned, counted if it is a failure or the end.
    fn answered(&mut self, given: io::Result<usize>) -> Got
        ensures got { result ≡ got_of given }
        ensures reader { inner_reader self.new ≡ inner_reader self.old }
        ensures faults { read_failures self.new ≡ failures_after_read given (read_failures self.old) }
        ensures cause { GivesCause (read_failures self.old) (read_failures self.new) result }
        ensures ended { CountsEnd (read_ends self.old) (read_ends self.new) result }
    {
        match given {
            Ok(0) => {
                self.ended = self.ended.saturating_add(1);
                Got::End
            }
            Ok(count) => Got::Bytes(count),
            Err(_) => {
                self.failed = self.failed.saturating_add(1);
                Got::Failed
            }
        }
    }
}

impl<R: io::Read> Source for ReadSource<R> {
    ghost use Rattle.dbp_plan.specs.ReadSource.{read_failures, read_ends, inner_reader};

    ghost left = { λ s. R.remaining (inner_reader s) };

    ghost faults = { read_failures };

    ghost ends = { read_ends };

    fn read(&mut self, buf: &mut [u8]) -> Got {
        let given = self.reader.read(buf);
        self.answered(given)
    }
}
