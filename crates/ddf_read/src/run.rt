//! Reads of a stretch of blocks.
ghost use Rattle.std.specs.Prelude.{◌≡◌, ◌+◌, ◌<◌, ◌≤◌, ◌^◌, length, OnOk, IfErr};
ghost use Rattle.ddf_array.specs.Volume.{Fits, IsVolume, capacity};
ghost use Rattle.ddf_read.specs.Given.{AreGiven, HaveSources, NoneLeftIn};
ghost use Rattle.ddf_read.specs.Reading.{OnlyReads, Failed, NoneFailed};
ghost use Rattle.ddf_read.specs.Stretches.{FollowFrom};

use crate::block::read_block;
use crate::reading::read_from;
use ddf_array::{Site, View};
use ddf_bay::Bay;
use ddf_bytes::Sector;

/// Reads blocks one by one. After a failure, the slot at which no source is left.
pub(crate) fn read_each<B: Bay>(
    bay: &mut B,
    view: &View,
    start: u64,
    out: &mut [Sector],
) -> Result<(), usize>
    requires fits { Fits (B.disks bay.old).sizes view.now }
    requires small { start + length out.old < 2 ^ 64 }
    requires blocks { start + length out.old ≤ capacity view.now }
    requires sources { HaveSources view.now start (length out.old) }
    ensures given { B.tells → OnOk result (AreGiven (Failed (B.disks bay.old) (B.disks bay.new)) (B.disks bay.old).held view.now start (length out.old) out.new) }
    ensures left { IfErr result (NoneLeftIn (Failed (B.disks bay.old) (B.disks bay.new)) view.now start (length out.old)) }
    ensures reads { OnlyReads (B.disks bay.old) (B.disks bay.new) }
{
    for at in 0..out.len() {
        read_block(bay, view, start + at as u64, &mut out[at])?;
    }
    Ok(())
}

/// Reads blocks whose first copies follow one another in one call, and one by one where that fails.
pub(crate) fn read_stretch<B: Bay>(
    bay: &mut B,
    view: &View,
    first: Site,
    start: u64,
    out: &mut [Sector],
) -> Result<(), usize>
    requires known { IsVolume view.now }
    requires fits { Fits (B.disks bay.old).sizes view.now }
    requires some { 0 < length out.old }
    requires small { start + length out.old < 2 ^ 64 }
    requires blocks { start + length out.old ≤ capacity view.now }
    requires follow { FollowFrom view.now first start (length out.old) }
    ensures given { B.tells → OnOk result (AreGiven (Failed (B.disks bay.old) (B.disks bay.new)) (B.disks bay.old).held view.now start (length out.old) out.new) }
    ensures left { IfErr result (NoneLeftIn (Failed (B.disks bay.old) (B.disks bay.new)) view.now start (length out.old)) }
    ensures reads { OnlyReads (B.disks bay.old) (B.disks bay.new) }
    ensures calls { NoneFailed view.now (B.disks bay.old) (B.disks bay.new) → (B.disks bay.new).calls ≤ (B.disks bay.old).calls + 1 }
{
    match read_from(bay, first, out) {
        Ok(()) => Ok(()),
        Err(_) => read_each(bay, view, start, out),
    }
}
