//! The calls of a bay on the heap: each is the inner one's.
ghost use Rattle.std.specs.Prelude.{ℕ, List};

use crate::boxed::Boxed;
use ddf_bay::{Bay, BayFailed};
use ddf_bytes::Sector;

impl<B: Bay + Drop> Bay for Boxed<B> {
    ghost use Rattle.ddf_boxed.specs.Boxing.{disks_of, inner_of};

    ghost disks = { disks_of B.disks };

    ghost tells = { B.tells };

    ghost few = { λ b. B.few (inner_of b) };

    ghost small = { λ b s. B.small (inner_of b) s };

    ghost told = { λ b.
        let inner = B.told (inner_of b) in
        record { held = inner.held; whole = inner.whole; only_now = inner.only_now; counts = inner.counts; since = inner.since } };

    ghost leads = { λ b. B.leads (inner_of b) };

    ghost unasked = { λ b next leads same low.
        let stops = B.unasked (inner_of b) (inner_of next) leads same low in
        record { later = stops.later; since = stops.since } };

    ghost told_before = { λ b next leads told. B.told_before (inner_of b) (inner_of next) leads told };

    ghost stays_gone = { λ b next slot leads gone. B.stays_gone (inner_of b) (inner_of next) slot leads gone };

    fn slots(&self) -> usize {
        self.inner.slots()
    }

    fn size(&self, slot: usize) -> u64 {
        self.inner.size(slot)
    }

    fn read(&mut self, slot: usize, lba: u64, into: &mut Sector) -> Result<(), BayFailed> {
        self.inner.read(slot, lba, into)
    }

    fn read_run(&mut self, slot: usize, lba: u64, into: &mut [Sector]) -> Result<(), BayFailed> {
        self.inner.read_run(slot, lba, into)
    }

    fn write(&mut self, slot: usize, lba: u64, from: &Sector) -> Result<(), BayFailed> {
        self.inner.write(slot, lba, from)
    }

    fn write_run(&mut self, slot: usize, lba: u64, from: &[Sector]) -> Result<(), BayFailed> {
        self.inner.write_run(slot, lba, from)
    }

    fn sync(&mut self, slot: usize) -> Result<(), BayFailed> {
        self.inner.sync(slot)
    }
}
