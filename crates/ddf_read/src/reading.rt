//! Reads of one sector, and of neighbouring ones.
ghost use Rattle.std.specs.Prelude.{◌≡◌, ◌+◌, ◌<◌, ◌≤◌, map, length, slice_index, option_to_list, OnOk, IfErr, IfSome};
ghost use Rattle.ddf_bay.specs.Sectors.{IsRead};
ghost use Rattle.ddf_array.specs.Sources.{copy};
ghost use Rattle.ddf_read.specs.Reading.{OnlyReads, Failed, Tried};

use ddf_array::Site;
use ddf_bay::Bay;
use ddf_bytes::Sector;

/// Reads a sector. After a failure, its slot.
pub(crate) fn read_site<B: Bay>(bay: &mut B, site: Site, into: &mut Sector) -> Result<(), usize>
    requires slot { site.slot < length (B.disks bay.old).sizes }
    requires sector { site.lba < slice_index (B.disks bay.old).sizes site.slot }
    ensures bytes { B.tells → OnOk result (into.new ≡ (B.disks bay.old).held site.slot site.lba) }
    ensures named { IfErr result (λ slot. slot ≡ site.slot) }
    ensures failed { IfErr result (Failed (B.disks bay.old) (B.disks bay.new)) }
    ensures reads { OnlyReads (B.disks bay.old) (B.disks bay.new) }
{
    match bay.read(site.slot, site.lba, into) {
        Ok(()) => Ok(()),
        Err(_) => Err(site.slot),
    }
}

/// Reads neighbouring sectors of a slot in one call, from the first on. After a failure, their slot.
pub fn read_from<B: Bay>(bay: &mut B, first: Site, into: &mut [Sector]) -> Result<(), usize>
    requires some { 0 < length into.old }
    requires slot { first.slot < length (B.disks bay.old).sizes }
    requires sectors { first.lba + length into.old ≤ slice_index (B.disks bay.old).sizes first.slot }
    ensures bytes { B.tells → OnOk result (IsRead ((B.disks bay.old).held first.slot) first.lba into.new) }
    ensures named { IfErr result (λ slot. slot ≡ first.slot) }
    ensures failed { IfErr result (Failed (B.disks bay.old) (B.disks bay.new)) }
    ensures reads { OnlyReads (B.disks bay.old) (B.disks bay.new) }
    ensures calls { (B.disks bay.new).calls ≤ (B.disks bay.old).calls + 1 }
{
    match bay.read_run(first.slot, first.lba, into) {
        Ok(()) => Ok(()),
        Err(_) => Err(first.slot),
    }
}

/// Reads a sector, if it is there. After a failure, its slot.
pub fn try_site<B: Bay>(
    bay: &mut B,
    site: Option<Site>,
    into: &mut Sector,
) -> Result<(), Option<usize>>
    requires { IfSome site (λ one. (one.slot < length (B.disks bay.old).sizes) × (one.lba < slice_index (B.disks bay.old).sizes one.slot)) }
    ensures tried { Tried B.tells (Failed (B.disks bay.old) (B.disks bay.new)) (B.disks bay.old).held (map copy (option_to_list site)) result into.new }
    ensures reads { OnlyReads (B.disks bay.old) (B.disks bay.new) }
{
    let Some(site) = site else {
        return Err(None);
    };
    match read_site(bay, site, into) {
        Ok(()) => Ok(()),
        Err(slot) => Err(Some(slot)),
    }
}
