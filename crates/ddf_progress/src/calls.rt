//! The calls of a bay that tells of its reads and writes: each is the inner one's.
ghost use Rattle.std.specs.Prelude.{ℕ, List};

use crate::watched::{Progress, Watched};
use ddf_bay::{Bay, BayFailed};
use ddf_bytes::Sector;

impl<B: Bay + Drop, P: Progress + Drop> Bay for Watched<B, P> {
    ghost use Rattle.ddf_progress.specs.Watching.{disks_of};

    ghost disks = { disks_of B.disks };

    ghost tells = { B.tells };

    ghost few = { λ w. B.few w.inner };

    ghost small = { λ w s. B.small w.inner s };

    ghost told = { λ w.
        let inner = B.told w.inner in
        record { held = inner.held; whole = inner.whole; only_now = inner.only_now; counts = inner.counts; since = inner.since } };

    ghost leads = { λ w. B.leads w.inner };

    ghost unasked = { λ w next leads same low.
        let stops = B.unasked w.inner next.inner leads same low in
        record { later = stops.later; since = stops.since } };

    ghost told_before = { λ w next leads told. B.told_before w.inner next.inner leads told };

    ghost stays_gone = { λ w next slot leads gone. B.stays_gone w.inner next.inner slot leads gone };

    fn slots(&self) -> usize {
        self.inner.slots()
    }

    fn size(&self, slot: usize) -> u64 {
        self.inner.size(slot)
    }

    fn read(&mut self, slot: usize, lba: u64, into: &mut Sector) -> Result<(), BayFailed> {
        self.progress.read(1);
        self.inner.read(slot, lba, into)
    }

    fn read_run(&mut self, slot: usize, lba: u64, into: &mut [Sector]) -> Result<(), BayFailed> {
        self.progress.read(into.len() as u64);
        self.inner.read_run(slot, lba, into)
    }

    fn write(&mut self, slot: usize, lba: u64, from: &Sector) -> Result<(), BayFailed> {
        self.progress.wrote(1);
        self.inner.write(slot, lba, from)
    }

    fn write_run(&mut self, slot: usize, lba: u64, from: &[Sector]) -> Result<(), BayFailed> {
        self.progress.wrote(from.len() as u64);
        self.inner.write_run(slot, lba, from)
    }

    fn sync(&mut self, slot: usize) -> Result<(), BayFailed> {
        self.inner.sync(slot)
    }
}
