//! What stands on desks behind open gates.
ghost use Rattle.std.specs.Prelude.{◌≡◌, ◌+◌, ◌*◌, ◌<◌, ◌≤◌, ℕ, List, None, Option, length, slice_index, OnOk, OnErr, IfOk, IfErr};
ghost use Rattle.std.specs.List.{list_any};
ghost use Rattle.ddf_bytes.specs.Counts.{Rose};
ghost use Rattle.ddf_bay.specs.Moments.{SpendsOver, SpendsReads};
ghost use Rattle.ddf_bay.specs.ReadsOnly.{ReadsOnly};
ghost use Rattle.ddf_stage.specs.Desks.{AreOn, HasDesk};
ghost use Rattle.ddf_stage.specs.Laid.{first_open, most_reads, names_one, on_desk};

use crate::desk::{Desk, PAYLOAD_SECTORS, Staged};
use crate::gate::{Gate, open_gate};
use ddf_bay::{Bay, BayFailed, DiskFault};
use ddf_bytes::Guid;

/// Whether a gate names one of these arrays.
fn names_one(arrays: &[Guid], gate: &Gate) -> bool
    ensures { result ≡ names_one arrays.now gate.now }
{
    arrays.iter().any(|array| *array == gate.array)
}

/// What stands on a desk behind its gate, if that stands open and names one of these arrays. Behind another gate nothing is read.
pub fn read_desk<B: Bay>(
    bay: &mut B,
    desk: Desk,
    arrays: &[Guid],
) -> Result<Option<Staged>, BayFailed>
    requires slot { desk.slot < length (B.disks bay.old).sizes }
    requires sectors { desk.lba + 18 ≤ slice_index (B.disks bay.old).sizes desk.slot }
    ensures exact { B.tells → IfOk result (λ staged. staged ≡ on_desk arrays.now (B.disks bay.old).held desk) }
    ensures reads { ReadsOnly (B.disks bay.old) (B.disks bay.new) }
    ensures ok { OnOk result ((B.disks bay.new).failed_reads ≡ (B.disks bay.old).failed_reads) }
    ensures failed { OnErr result (Rose ((B.disks bay.old).failed_reads desk.slot) ((B.disks bay.new).failed_reads desk.slot)) }
    ensures spends { SpendsReads (B.disks bay.old) (B.disks bay.new) desk.slot 2 }
    // Where nothing stands there the gate alone is read.
    ensures shut { B.tells → on_desk arrays.now (B.disks bay.old).held desk ≡ None → SpendsReads (B.disks bay.old) (B.disks bay.new) desk.slot 1 }
{
    let mut sector = [0; 512];
    bay.read(desk.slot, desk.lba, &mut sector)?;
    let Some(gate) = open_gate(&sector) else {
        return Ok(None);
    };
    if !names_one(arrays, &gate) {
        return Ok(None);
    }
    let mut sectors = [[0; 512]; PAYLOAD_SECTORS];
    bay.read_run(desk.slot, desk.lba + 1, &mut sectors)?;
    Ok(Some(Staged { gate, sectors }))
}

/// What stands behind the first of these desks' gates that stands open and names one of the arrays.
///
/// # Errors
/// A read of the slot of a desk failed.
pub fn overlay<B: Bay>(
    bay: &mut B,
    desks: &[Desk],
    arrays: &[Guid],
) -> Result<Option<Staged>, DiskFault>
    requires { AreOn (B.disks bay.old).sizes desks.now }
    ensures exact { B.tells → IfOk result (λ staged. staged ≡ first_open arrays.now (B.disks bay.old).held desks.now) }
    ensures reads { ReadsOnly (B.disks bay.old) (B.disks bay.new) }
    ensures ok { OnOk result ((B.disks bay.new).failed_reads ≡ (B.disks bay.old).failed_reads) }
    ensures failed { IfErr result (λ e. HasDesk desks.now e.0 × Rose ((B.disks bay.old).failed_reads e.0) ((B.disks bay.new).failed_reads e.0)) }
    ensures writes { (B.disks bay.new).failed_writes ≡ (B.disks bay.old).failed_writes }
    ensures spends { SpendsOver (B.disks bay.old) (B.disks bay.new) 0 (2 * length desks.now) }
    // Behind a gate at which nothing stands nothing is read, and nothing of the desks behind the first at which something does.
    ensures shut { B.tells → (B.disks bay.new).calls ≤ (B.disks bay.old).calls + most_reads arrays.now (B.disks bay.old).held desks.now }
{
    for desk in desks {
        match read_desk(bay, *desk, arrays) {
            Ok(None) => {}
            Ok(Some(staged)) => return Ok(Some(staged)),
            Err(_) => return Err(DiskFault(desk.slot)),
        }
    }
    Ok(None)
}
