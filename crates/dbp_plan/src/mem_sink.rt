// A sink in memory, which can be made to fail.

ghost use Rattle.std.specs.Prelude.{◌≡◌, ℕ, ◌+◌, ◌^◌, ◌<◌, ◌≤◌, List, [], length, Option, Some, None, vec_len, vec_capacity};
ghost use Rattle.dbp_plan.specs.Sink.{TakesBytes, TakesCause};

use crate::calls::fails_at;
use crate::{Put, Sink};

/// A sink in memory. A write takes as many bytes as the piece, the offered bytes and the room that is left allow.
/// It fails if its number, counted from 1, is among those that are to fail, and if no room is left.
#[derive(Drop)]
pub struct MemSink {
    store: Vec<u8>,
    room: usize,
    piece: usize,
    fail: Vec<u32>,
    calls: u64,
    failed: u64,
    ghost fits: { (vec_len store ≤ room) × (room ≤ vec_capacity store) },
    ghost some: { 1 ≤ piece },
}

impl MemSink {
    ghost use Rattle.dbp_plan.specs.MemSink.{stored_bytes, failures, calls, piece_size, room_size, failing_calls};

    /// A sink of `room` bytes, in pieces of at most this size, whose calls with the numbers in `fail` fail. The
    /// store is empty and has the capacity, so that a write takes no memory.
    pub fn new(store: Vec<u8>, room: usize, piece: usize, fail: Vec<u32>) -> MemSink
        requires empty { store.items ≡ [] }
        requires room { room ≤ vec_capacity store }
        requires piece { 1 ≤ piece }
        ensures written { stored_bytes result ≡ [] }
        ensures faults { failures result ≡ 0 }
        ensures calls { calls result ≡ 0 }
        ensures piece { piece_size result ≡ piece }
        ensures room { room_size result ≡ room }
        ensures failing { failing_calls result ≡ fail.items }
    {
        MemSink {
            store,
            room,
            piece,
            fail,
            calls: 0,
            failed: 0,
        }
    }

    /// What was written.
    pub fn bytes(&self) -> &[u8]
        ensures { result.now ≡ stored_bytes self.now }
    {
        &self.store
    }
}

impl Sink for MemSink {
    ghost use Rattle.dbp_plan.specs.MemSink.{stored_bytes, failures, next_put, CountsWrite};

    ghost written = { λ s. Some (stored_bytes s) };

    ghost faults = { failures };

    fn write(&mut self, piece: &[u8]) -> Put
        requires { 0 < length piece.now }
        ensures bytes { TakesBytes (Some (stored_bytes self.old)) (Some (stored_bytes self.new)) piece.now result }
        ensures cause { TakesCause (failures self.old) (failures self.new) result }
        ensures exact { result ≡ next_put self.old (length piece.now) }
        ensures counts { CountsWrite self.old self.new (length piece.now) }
    {
        self.calls = self.calls.saturating_add(1);
        let count = self
            .piece
            .min(piece.len())
            .min(self.room - self.store.len());
        if count == 0 || fails_at(&self.fail, self.calls) {
            self.failed = self.failed.saturating_add(1);
            return Put::Failed;
        }
        self.store.extend_from_slice(&piece[..count]).unwrap();
        Put::Bytes(count)
    }
}
