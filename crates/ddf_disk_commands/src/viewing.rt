//! What a slot shows of itself: its anchor, the two headers that the anchor names, and its copies. docs/FORMAT.md#whole-copies
ghost use Rattle.std.specs.Prelude.{◌≡◌, ◌+◌, ◌<◌, ◌≤◌, IfOk, length, slice_index};
ghost use Rattle.ddf_header.specs.Header.{decoded};
ghost use Rattle.ddf_bay.specs.State.{on_slot};
ghost use Rattle.ddf_bay.specs.ReadsOnly.{ReadsOnly, LooksAt};
ghost use Rattle.ddf_copy.specs.Faults.{show_failed};
ghost use Rattle.ddf_disk_commands.specs.Disk.{decoded_view, disk_view, header_view, headers_view};

use ddf_bay::Bay;
use ddf_bytes::Sector;
use ddf_copy::{AnchorFault, ShowFault, anchor_of, copies_of};
use ddf_header::{Header, HeaderKind, decode};
use ddf_text::{DiskView, HeaderView, Headers};
use std::alloc::Global;

/// Reads what the slot shows of itself.
#[tactic(auto, unfolding(crate::specs::Disk::disk_view))]
pub(crate) fn view_disk<B: Bay>(
    alloc: Global,
    bay: &mut B,
    slot: usize,
) -> Result<DiskView, ShowFault>
    requires { slot < length (B.disks bay.old).sizes }
    ensures view { B.tells → IfOk result (λ view. view ≡ on_slot disk_view (B.disks bay.old) slot) }
    ensures reads { ReadsOnly (B.disks bay.old) (B.disks bay.new) }
    ensures look { LooksAt (B.disks bay.old) (B.disks bay.new) slot (show_failed result) }
    ensures calls { (B.disks bay.new).calls ≤ (B.disks bay.old).calls + 17 }
{
    match anchor_of(bay, slot) {
        Ok(anchor) => {
            let headers = view_headers(alloc, bay, slot, &anchor)?;
            Ok(DiskView::Headers(headers))
        }
        Err(AnchorFault::Blank) => Ok(DiskView::Blank),
        Err(AnchorFault::Damaged(fault)) => Ok(DiskView::Damaged(fault)),
        Err(AnchorFault::Disk(slot)) => Err(ShowFault::Disk(slot)),
    }
}

/// Reads the two headers that the anchor names, and then the copies.
fn view_headers<B: Bay>(
    alloc: Global,
    bay: &mut B,
    slot: usize,
    anchor: &Header,
) -> Result<Headers, ShowFault>
    requires { slot < length (B.disks bay.old).sizes }
    ensures view { B.tells → IfOk result (λ view. view ≡ on_slot headers_view (B.disks bay.old) slot anchor.now) }
    ensures reads { ReadsOnly (B.disks bay.old) (B.disks bay.new) }
    ensures look { LooksAt (B.disks bay.old) (B.disks bay.new) slot (show_failed result) }
    ensures calls { (B.disks bay.new).calls ≤ (B.disks bay.old).calls + 16 }
{
    let primary = view_header(bay, slot, anchor.primary_lba, HeaderKind::Primary)?;
    let secondary = view_header(bay, slot, anchor.secondary_lba, HeaderKind::Secondary)?;
    let copies = copies_of(alloc, bay, slot, anchor)?;
    Ok(Headers {
        anchor: *anchor,
        primary,
        secondary,
        copies,
    })
}

/// Reads the header of a kind at an LBA.
#[tactic(auto, unfolding(crate::specs::Disk::header_view))]
fn view_header<B: Bay>(
    bay: &mut B,
    slot: usize,
    lba: u64,
    kind: HeaderKind,
) -> Result<HeaderView, ShowFault>
    requires { slot < length (B.disks bay.old).sizes }
    ensures view { B.tells → IfOk result (λ view. view ≡ on_slot header_view (B.disks bay.old) slot lba kind) }
    ensures reads { ReadsOnly (B.disks bay.old) (B.disks bay.new) }
    ensures look { LooksAt (B.disks bay.old) (B.disks bay.new) slot (show_failed result) }
    ensures calls { (B.disks bay.new).calls ≤ (B.disks bay.old).calls + 1 }
{
    if lba >= bay.size(slot) {
        return Ok(HeaderView::Room);
    }
    let mut sector = [0; 512];
    match bay.read(slot, lba, &mut sector) {
        Ok(()) => Ok(header_in(&sector, kind)),
        Err(_) => Err(ShowFault::Disk(slot)),
    }
}

/// The header of a kind that stands in a sector.
fn header_in(sector: &Sector, kind: HeaderKind) -> HeaderView
    ensures { result ≡ decoded_view (decoded kind sector.now) }
{
    match decode(sector, kind) {
        Ok(header) => HeaderView::Header(header),
        Err(fault) => HeaderView::Fault(fault),
    }
}
