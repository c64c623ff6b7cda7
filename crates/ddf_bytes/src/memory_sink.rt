//! A sink for tests: it fails where it is told to, so that a command whose output fails can be played.
ghost use Rattle.std.specs.Prelude.{◌≡◌, ◌≤◌, ◌<◌, ◌+◌, ◌-◌, ◌^◌, ◌++◌, ℕ, List, [], length, take, min, IfOk, OnOk, OnErr, IsErr, IsTrue, ◌↔◌, vec_len, vec_capacity};
ghost use Rattle.ddf_bytes.specs.Counts.{Rose};
ghost use Rattle.ddf_bytes.specs.Streams.{SinkNeverFalls};
ghost use Rattle.ddf_bytes.specs.Memory.{is_listed, output_of};

use crate::{Failed, NoMemory, Sink};
use std::alloc::Global;
use std::marker::Model;

/// A sink in memory of a given room, for tests: it tells what was taken, and the calls with the listed numbers fail.
/// Calls are numbered from 0.
#[derive(Drop)]
pub struct MemorySink {
    taken: Vec<u8>,
    room: usize,
    failing: Vec<u64>,
    calls: u64,
    faults: u64,
    empty_takes: u64,
}

impl Model for MemorySink {
    ghost use Rattle.std.specs.Prelude.{◌≤◌, ◌+◌, vec_len, vec_capacity};
    ghost use Rattle.ddf_bytes.specs.Memory.{MemoryOutput};

    ghost Value = { MemoryOutput };

    ghost view = { λ s. record { taken = s.taken.items; room = s.room; failing = s.failing.items; calls = s.calls; faults = s.faults; empty_takes = s.empty_takes } };

    ghost invariant = { λ s. vec_len s.taken + s.room ≤ vec_capacity s.taken };
}

impl MemorySink {
    /// An empty sink that takes so many bytes, of which the calls with the listed numbers fail.
    pub fn new(alloc: Global, room: usize, failing: Vec<u64>) -> Result<MemorySink, NoMemory>
        ensures { IfOk result (λ sink. sink ≡ record { taken = []; room = room; failing = failing.items; calls = 0; faults = 0; empty_takes = 0 }) }
    {
        Ok(MemorySink {
            taken: Vec::with_capacity(alloc, room)?,
            room,
            failing,
            calls: 0,
            faults: 0,
            empty_takes: 0,
        })
    }

    /// What was taken.
    pub fn bytes(&self) -> &[u8]
        ensures { result.now ≡ self.now.taken }
    {
        self.taken.as_slice()
    }
}

/// Adds bytes for which there is room.
fn push_all(taken: &mut Vec<u8>, bytes: &[u8])
    requires { vec_len taken.old + length bytes.now ≤ vec_capacity taken.old }
    ensures items { taken.new.items ≡ taken.old.items ++ bytes.now }
    ensures len { vec_len taken.new ≡ vec_len taken.old + length bytes.now }
    ensures capacity { vec_capacity taken.old ≤ vec_capacity taken.new }
{
    match taken.extend_from_slice(bytes) {
        Ok(()) => (),
        Err(_) => unreachable!(),
    }
}

impl Sink for MemorySink {
    ghost tells = { Unit {0} };

    ghost output = { output_of };

    fn write(&mut self, piece: &[u8]) -> Result<usize, Failed>
        ensures within { IfOk result (λ count. count ≤ length piece.now) }
        ensures bytes { IfOk result (λ count. self.new.taken ≡ self.old.taken ++ take count piece.now) }
        ensures bytes_failed { OnErr result (self.new.taken ≡ self.old.taken) }
        ensures ok { OnOk result (self.new.faults ≡ self.old.faults) }
        ensures failed { OnErr result (Rose self.old.faults self.new.faults) }
        ensures never_falls { SinkNeverFalls (output_of self.old) (output_of self.new) }
        ensures some { IfOk result (λ count. 0 < count → self.new.empty_takes ≡ self.old.empty_takes) }
        ensures none { 0 < length piece.now → result ≡ Ok 0 → Rose self.old.empty_takes self.new.empty_takes }
        ensures none_of_none { length piece.now ≡ 0 → self.new.empty_takes ≡ self.old.empty_takes }
        ensures failed_takes { OnErr result (self.new.empty_takes ≡ self.old.empty_takes) }

        // Exactly the listed calls fail, and the others take what fits.
        ensures listed { IsErr result ↔ IsTrue (is_listed self.old.failing self.old.calls) }
        ensures fits { IfOk result (λ count. count ≡ min self.old.room (length piece.now)) }
        ensures room { IfOk result (λ count. self.new.room ≡ self.old.room - count) }
        ensures same_list { self.new.failing ≡ self.old.failing }
        ensures numbered { self.new.calls ≡ min (self.old.calls + 1) (2 ^ 64 - 1) }
        ensures counted { OnErr result (self.new.faults ≡ min (self.old.faults + 1) (2 ^ 64 - 1)) }
        ensures same_room { OnErr result (self.new.room ≡ self.old.room) }
    {
        let fails = self.failing.contains(&self.calls);
        self.calls = self.calls.saturating_add(1);
        if fails {
            self.faults = self.faults.saturating_add(1);
            return Err(Failed);
        }
        let count = self.room.min(piece.len());
        push_all(&mut self.taken, &piece[..count]);
        self.room -= count;
        if count == 0 && !piece.is_empty() {
            self.empty_takes = self.empty_takes.saturating_add(1);
        }
        Ok(count)
    }
}
