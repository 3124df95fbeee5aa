// Where bytes go, and the sink over a writer of std's.

ghost use Rattle.std.specs.Prelude.{◌≡◌, ℕ, ◌<◌, List, length, Option};
ghost use Rattle.dbp_plan.specs.Sink.{TakesBytes, TakesCause};

use std::io;

/// What a write takes.
#[derive(Clone, Copy, Debug, PartialEq, Eq)]
pub enum Put {
    /// So many bytes, at least one, from the beginning of the piece.
    Bytes(usize),
    /// The write failed, and what was written stayed.
    Failed,
}

/// Where bytes go: a file, a pipe, memory.
pub trait Sink {
    /// The bytes written so far, if the sink says them.
    ghost written: { Self → Option (List ℕ) };

    /// How often the sink has failed. The count never falls.
    ghost faults: { Self → ℕ };

    /// Writes some bytes from the beginning of the piece. It fails only if the count of faults rose, or stands at
    /// its last value.
    fn write(&mut self, piece: &[u8]) -> Put
        requires { 0 < length piece.now }
        ensures bytes { TakesBytes (written self.old) (written self.new) piece.now result }
        ensures cause { TakesCause (faults self.old) (faults self.new) result };
}

/// A sink over a writer of std's, as a file or a pipe. It says of its bytes what the writer says, which for a
/// file or a pipe is nothing. A write that takes nothing has failed. Its count of faults is a number of 64 bits
/// that stays at its last value.
#[derive(Drop)]
pub struct WriteSink<W> {
    writer: W,
    failed: u64,
}

impl<W: io::Write> WriteSink<W> {
    ghost use Rattle.dbp_plan.specs.WriteSink.{write_failures, inner_writer, put_of, failures_after_write};

    /// A sink over the writer, which hasn't failed yet.
    pub fn new(writer: W) -> WriteSink<W>
        ensures faults { write_failures result ≡ 0 }
        ensures writer { inner_writer result ≡ writer }
    {
        WriteSink { writer, failed: 0 }
    }

    // What the writer returned, counted if it is a failure.
    fn answered(&mut self, taken: io::Result<usize>) -> Put
        ensures put { result ≡ put_of taken }
        ensures writer { inner_writer self.new ≡ inner_writer self.old }
        ensures faults { write_failures self.new ≡ failures_after_write taken (write_failures self.old) }
        ensures cause { TakesCause (write_failures self.old) (write_failures self.new) result }
    {
        match taken {
            Ok(count) if count > 0 => Put::Bytes(count),
            _ => {
                self.failed = self.failed.saturating_add(1);
                Put::Failed
            }
        }
    }
}

impl<W: io::Write> Sink for WriteSink<W> {
    ghost use Rattle.dbp_plan.specs.WriteSink.{write_failures, inner_writer};

    ghost written = { λ s. W.contents (inner_writer s) };

    ghost faults = { write_failures };

    fn write(&mut self, piece: &[u8]) -> Put {
        let taken = self.writer.write(piece);
        self.answered(taken)
    }
}
