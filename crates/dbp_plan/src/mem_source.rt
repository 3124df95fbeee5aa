// A source in memory, which can be made to fail.

ghost use Rattle.std.specs.Prelude.{◌≡◌, ℕ, ◌+◌, ◌^◌, ◌<◌, ◌≤◌, List, length, drop, Option, Some, None, vec_len};
ghost use Rattle.dbp_plan.specs.Source.{CountsEnd, GivesBytes, GivesCause};

use crate::calls::fails_at;
use crate::{Got, Source};

/// A source in memory. A read gives as many bytes as the piece, the buffer and what is left allow, and fails
/// if its number, counted from 1, is among those that are to fail. For tests.
#[derive(Drop)]
pub struct MemSource {
    bytes: Vec<u8>,
    at: usize,
    piece: usize,
    fail: Vec<u32>,
    calls: u64,
    failed: u64,
    ended: u64,
    ghost in_range: { at ≤ vec_len bytes },
    ghost some: { 1 ≤ piece },
}

impl MemSource {
    ghost use Rattle.dbp_plan.specs.MemSource.{bytes_left, failures, ends, calls, piece_size, failing_calls};

    /// A source of the bytes, in pieces of at most this size, whose calls with the numbers in `fail` fail.
    pub fn new(bytes: Vec<u8>, piece: usize, fail: Vec<u32>) -> MemSource
        requires { 1 ≤ piece }
        ensures left { bytes_left result ≡ bytes.items }
        ensures faults { failures result ≡ 0 }
        ensures ends { ends result ≡ 0 }
        ensures calls { calls result ≡ 0 }
        ensures piece { piece_size result ≡ piece }
        ensures failing { failing_calls result ≡ fail.items }
    {
        MemSource {
            bytes,
            at: 0,
            piece,
            fail,
            calls: 0,
            failed: 0,
            ended: 0,
        }
    }
}

impl Source for MemSource {
    ghost use Rattle.dbp_plan.specs.MemSource.{bytes_left, failures, ends, next_got, CountsRead, KeepsRest};

    ghost left = { λ s. Some (bytes_left s) };

    ghost faults = { failures };

    ghost ends = { ends };

    fn read(&mut self, buf: &mut [u8]) -> Got
        requires { 0 < length buf.old }
        ensures bytes { GivesBytes (Some (bytes_left self.old)) (Some (bytes_left self.new)) buf.new result }
        ensures cause { GivesCause (failures self.old) (failures self.new) result }
        ensures ended { CountsEnd (ends self.old) (ends self.new) result }
        ensures exact { result ≡ next_got self.old (length buf.old) }
        ensures counts { CountsRead self.old self.new }
        ensures after { KeepsRest buf.old buf.new result }
    {
        self.calls = self.calls.saturating_add(1);
        if fails_at(&self.fail, self.calls) {
            self.failed = self.failed.saturating_add(1);
            return Got::Failed;
        }
        let rest = self.bytes.len() - self.at;
        if rest == 0 {
            self.ended = self.ended.saturating_add(1);
            return Got::End;
        }
        let count = self.piece.min(buf.len()).min(rest);
        buf[..count].copy_from_slice(&self.bytes[self.at..self.at + count]);
        self.at += count;
        Got::Bytes(count)
    }
}
