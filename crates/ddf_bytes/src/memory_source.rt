//! A source for tests: it fails where it is told to, so that a command whose input fails can be played.
ghost use Rattle.std.specs.Prelude.{◌≡◌, ◌≤◌, ◌<◌, ◌+◌, ◌-◌, ◌^◌, ℕ, List, [], length, take, min, IfOk, OnOk, OnErr, IsErr, IsTrue, ◌↔◌, vec_len};
ghost use Rattle.ddf_bytes.specs.Counts.{Rose};
ghost use Rattle.ddf_bytes.specs.Streams.{Gives};
ghost use Rattle.ddf_bytes.specs.Memory.{is_listed, input_of};

use crate::{Failed, Source};
use std::marker::Model;

/// A source over bytes in memory, for tests: it tells what is left, and the calls with the listed numbers fail.
/// Calls are numbered from 0.
#[derive(Drop)]
pub struct MemorySource {
    bytes: Vec<u8>,
    at: usize,
    failing: Vec<u64>,
    calls: u64,
    faults: u64,
}

impl Model for MemorySource {
    ghost use Rattle.std.specs.Prelude.{◌≤◌, vec_len, drop};
    ghost use Rattle.ddf_bytes.specs.Memory.{MemoryInput};

    ghost Value = { MemoryInput };

    ghost view = { λ s. record { left = drop s.at s.bytes.items; failing = s.failing.items; calls = s.calls; faults = s.faults } };

    ghost invariant = { λ s. s.at ≤ vec_len s.bytes };
}

impl MemorySource {
    /// A source of these bytes, of which the calls with the listed numbers fail and no others.
    pub fn new(bytes: Vec<u8>, failing: Vec<u64>) -> MemorySource
        ensures { result ≡ record { left = bytes.items; failing = failing.items; calls = 0; faults = 0 } }
    {
        MemorySource {
            bytes,
            at: 0,
            failing,
            calls: 0,
            faults: 0,
        }
    }
}

/// Copies a front of the bytes, as many as fit.
fn copy_front(from: &[u8], into: &mut [u8]) -> usize
    ensures count { result ≡ min (length into.old) (length from.now) }
    ensures bytes { take result into.new ≡ take result from.now }
    ensures enough { result ≤ length from.now }
{
    let count = into.len().min(from.len());
    into[..count].copy_from_slice(&from[..count]);
    count
}

impl Source for MemorySource {
    ghost tells = { Unit {0} };

    ghost input = { input_of };

    fn read(&mut self, into: &mut [u8]) -> Result<usize, Failed>
        ensures within { IfOk result (λ count. count ≤ length into.old) }
        ensures bytes { IfOk result (Gives (input_of self.old) (input_of self.new) into.new) }
        ensures end { 0 < length into.old → result ≡ Ok 0 → self.old.left ≡ [] }
        ensures bytes_failed { OnErr result (self.new.left ≡ self.old.left) }
        ensures ok { OnOk result (self.new.faults ≡ self.old.faults) }
        ensures failed { OnErr result (Rose self.old.faults self.new.faults) }
        ensures never_falls { self.old.faults ≤ self.new.faults }

        // Exactly the listed calls fail.
        ensures listed { IsErr result ↔ IsTrue (is_listed self.old.failing self.old.calls) }
        ensures same_list { self.new.failing ≡ self.old.failing }
        ensures numbered { self.new.calls ≡ min (self.old.calls + 1) (2 ^ 64 - 1) }
        ensures counted { OnErr result (self.new.faults ≡ min (self.old.faults + 1) (2 ^ 64 - 1)) }
    {
        let fails = self.failing.contains(&self.calls);
        self.calls = self.calls.saturating_add(1);
        if fails {
            self.faults = self.faults.saturating_add(1);
            return Err(Failed);
        }
        let count = copy_front(&self.bytes[self.at..], into);
        self.at += count;
        Ok(count)
    }
}
