//! The calls of disks whose bad block logs are honoured: each is that of the bay that hides the logs.
ghost use Rattle.std.specs.Prelude.{ℕ, List};

use crate::honoured::Honoured;
use ddf_bay::{Bay, BayFailed};
use ddf_bytes::Sector;

impl<B: Bay + Drop> Bay for Honoured<B> {
    ghost use Rattle.ddf_hidden_logs.specs.Honouring.{disks_of, inner_of};
    ghost use Rattle.ddf_hidden_logs.specs.HonouredLaws.{leads_below, leads_of, stays_gone_of, stops_of, told_of};

    ghost disks = { disks_of B.disks };

    ghost tells = { B.tells };

    ghost few = { λ h. B.few (inner_of h) };

    ghost small = { λ h s. B.small (inner_of h) s };

    ghost told = { λ h. told_of B.disks h (B.told (inner_of h)) };

    ghost leads = { λ h. leads_of B.disks h (B.leads (inner_of h)) };

    ghost unasked = { λ h next leads same low. stops_of B.disks h next leads (B.unasked (inner_of h) (inner_of next) (leads_below B.disks h next leads) same low) };

    ghost told_before = { λ h next leads told. B.told_before (inner_of h) (inner_of next) (leads_below B.disks h next leads) told };

    ghost stays_gone = { λ h next slot leads gone. stays_gone_of B.disks h next leads slot (B.stays_gone (inner_of h) (inner_of next) slot (leads_below B.disks h next leads)) gone };

    fn slots(&self) -> usize {
        self.inner.slots()
    }

    fn size(&self, slot: usize) -> u64 {
        self.inner.size(slot)
    }

    fn read(&mut self, slot: usize, lba: u64, into: &mut Sector) -> Result<(), BayFailed> {
        self.inner.read(slot, lba, into)
    }

    fn read_run(&mut self, slot: usize, lba: u64, into: &mut [Sector]) -> Result<(), BayFailed> {
        self.inner.read_run(slot, lba, into)
    }

    fn write(&mut self, slot: usize, lba: u64, from: &Sector) -> Result<(), BayFailed> {
        self.inner.write(slot, lba, from)
    }

    fn write_run(&mut self, slot: usize, lba: u64, from: &[Sector]) -> Result<(), BayFailed> {
        self.inner.write_run(slot, lba, from)
    }

    fn sync(&mut self, slot: usize) -> Result<(), BayFailed> {
        self.inner.sync(slot)
    }
}
