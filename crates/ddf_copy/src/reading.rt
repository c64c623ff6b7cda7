//! Reading a copy.
ghost use Rattle.std.specs.Prelude.{◌≡◌, ◌⊎◌, ◌+◌, ◌-◌, ◌<◌, ◌≤◌, IfErr, IfOk, Err, false, length, slice_index};
ghost use Rattle.ddf_bay.specs.State.{on_slot};
ghost use Rattle.ddf_bay.specs.ReadsOnly.{ReadsOnly, LooksAt};
ghost use Rattle.ddf_header.specs.Geometry.{IsSound};
ghost use Rattle.ddf_header.specs.Header.{IsWritable};
ghost use Rattle.ddf_copy.specs.Copies.{copy_of};
ghost use Rattle.ddf_copy.specs.Faults.{IsCopyFaultOf, UpToLook, copy_failed};
ghost use Rattle.ddf_copy.specs.Gate.{header_in, header_of};
ghost use Rattle.ddf_copy.specs.Headers.{IsAnchor, IsReadHeader, IsUnder};
ghost use Rattle.ddf_copy.specs.Room.{DoFit};
ghost use Rattle.ddf_copy.specs.Whole.{IsWhole, copy_read};
ghost use Rattle.ddf_copy.specs.Which.{place_of};
ghost use Rattle.ddf_copy.specs.Written.{CanBeCopy};
ghost use Rattle.ddf_copy.specs.declared.fault.CopyFault.{CopyFault};

use crate::copy::DiskCopy;
use crate::fault::CopyFault;
use crate::gate::gate_fault;
use crate::raw::{Raw, read_raw};
use crate::sections::copy_in;
use crate::which::Which;
use ddf_bay::Bay;
use ddf_bytes::Sector;
use ddf_header::{Header, decode};
use std::alloc::Global;

/// A whole copy, and the sectors of its sections.
#[derive(Drop)]
pub(crate) struct Whole {
    pub copy: DiskCopy,
    pub raw: Raw,
}

/// Reads one copy under the slot's anchor. It answers Ok exactly where the copy is whole (profile): its header is one of its
/// kind, its gate is closed, it is the anchor's and has room, and its sections are what they are to be. Otherwise the
/// answer is the first fault, but that a call that fails is `Disk` and want of memory `Memory`.
pub fn read_copy<B: Bay>(
    alloc: Global,
    bay: &mut B,
    slot: usize,
    anchor: &Header,
    which: Which,
) -> Result<DiskCopy, CopyFault>
    requires { slot < length (B.disks bay.old).sizes }
    ensures copy { B.tells → UpToLook slot result (on_slot copy_of (B.disks bay.old) slot anchor.now which) }
    ensures writable { IfOk result CanBeCopy }
    // It can be written again, in both places.
    ensures under { IsAnchor anchor.now → IfOk result (IsUnder (slice_index (B.disks bay.old).sizes slot) anchor.now) }
    ensures reads { ReadsOnly (B.disks bay.old) (B.disks bay.new) }
    ensures look { LooksAt (B.disks bay.old) (B.disks bay.new) slot (copy_failed result) }
    ensures named { IfErr result (IsCopyFaultOf slot) }
    ensures calls { (B.disks bay.new).calls ≤ (B.disks bay.old).calls + 7 }
{
    match read_whole(alloc, bay, slot, anchor, which) {
        Ok(whole) => Ok(whole.copy),
        Err(fault) => Err(fault),
    }
}

/// Reads one copy, and keeps the sectors of its sections.
#[tactic(auto, unfolding(crate::specs::Copies::copy_of))]
pub(crate) fn read_whole<B: Bay>(
    alloc: Global,
    bay: &mut B,
    slot: usize,
    anchor: &Header,
    which: Which,
) -> Result<Whole, CopyFault>
    requires { slot < length (B.disks bay.old).sizes }
    ensures copy { B.tells → UpToLook slot (copy_read result) (on_slot copy_of (B.disks bay.old) slot anchor.now which) }
    ensures whole { IfOk result IsWhole }
    ensures under { IsAnchor anchor.now → IfOk result (λ whole. IsUnder (slice_index (B.disks bay.old).sizes slot) anchor.now whole.copy) }
    ensures reads { ReadsOnly (B.disks bay.old) (B.disks bay.new) }
    ensures look { LooksAt (B.disks bay.old) (B.disks bay.new) slot (copy_failed result) }
    ensures named { IfErr result (IsCopyFaultOf slot) }
    ensures calls { (B.disks bay.new).calls ≤ (B.disks bay.old).calls + 7 }
{
    let header = read_header(bay, slot, anchor, which)?;
    let raw = read_raw(alloc, bay, slot, which.place(anchor), &header.geometry)?;
    match copy_in(alloc, &header, &raw) {
        Ok(copy) => Ok(Whole { copy, raw }),
        Err(fault) => Err(fault),
    }
}

/// Reads the header of a copy.
#[tactic(auto, unfolding(crate::specs::Gate::header_of))]
fn read_header<B: Bay>(
    bay: &mut B,
    slot: usize,
    anchor: &Header,
    which: Which,
) -> Result<Header, CopyFault>
    requires { slot < length (B.disks bay.old).sizes }
    ensures header { B.tells → (result ≡ on_slot header_of (B.disks bay.old) slot anchor.now which) ⊎ (result ≡ Err (CopyFault.Disk slot)) }
    ensures sound { IfOk result (λ header. IsSound header.geometry) }
    ensures writable { IfOk result (λ header. IsWritable header.kind header) }
    ensures closed { IfOk result (λ header. header.openness ≡ 0) }
    ensures some { IfOk result (λ header. 0 < slice_index (B.disks bay.old).sizes slot) }
    ensures fit { IfOk result (λ header. DoFit (slice_index (B.disks bay.old).sizes slot - 1) (place_of which anchor.now) header.geometry.sections) }
    ensures read { IfOk result (IsReadHeader (slice_index (B.disks bay.old).sizes slot) anchor.now which) }
    ensures reads { ReadsOnly (B.disks bay.old) (B.disks bay.new) }
    ensures look { LooksAt (B.disks bay.old) (B.disks bay.new) slot (copy_failed result) }
    ensures named { IfErr result (IsCopyFaultOf slot) }
    ensures calls { (B.disks bay.new).calls ≤ (B.disks bay.old).calls + 1 }
{
    let size = bay.size(slot);
    let lba = which.place(anchor);
    if lba >= size {
        return Err(CopyFault::Room(0));
    }
    let mut sector = [0; 512];
    match bay.read(slot, lba, &mut sector) {
        Ok(()) => header_in(size, anchor, which, &sector),
        Err(_) => Err(CopyFault::Disk(slot)),
    }
}

/// The header that was read at its place, or what is wrong with it.
#[tactic(auto, unfolding(crate::specs::Gate::header_in))]
fn header_in(size: u64, anchor: &Header, which: Which, sector: &Sector) -> Result<Header, CopyFault>
    requires { 0 < size }
    ensures header { result ≡ header_in size anchor.now which sector.now }
    ensures sound { IfOk result (λ header. IsSound header.geometry) }
    ensures writable { IfOk result (λ header. IsWritable header.kind header) }
    ensures closed { IfOk result (λ header. header.openness ≡ 0) }
    ensures fit { IfOk result (λ header. DoFit (size - 1) (place_of which anchor.now) header.geometry.sections) }
    ensures read { IfOk result (IsReadHeader size anchor.now which) }
    ensures no_look { copy_failed result ≡ false }
{
    match decode(sector, which.kind()) {
        Ok(header) => match gate_fault(size, anchor, which, &header, sector) {
            None => Ok(header),
            Some(fault) => Err(fault),
        },
        Err(fault) => Err(CopyFault::Header(fault)),
    }
}
