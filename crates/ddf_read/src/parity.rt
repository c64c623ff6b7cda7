//! The sums of the other cells of rows.
ghost use Rattle.std.specs.Prelude.{◌≡◌, ◌+◌, ◌<◌, ◌≤◌, ℕ, [], map, length, slice_index, slice_index_or, option_to_list, OnOk, IfErr, IfSome};
ghost use Rattle.ddf_parity.specs.Xor.{xor, zeros};
ghost use Rattle.ddf_array.specs.Sources.{row, row_without};
ghost use Rattle.ddf_array.specs.Volume.{IsPart, PartFits};
ghost use Rattle.ddf_read.specs.Reading.{OnlyReads, Failed, Tried, HasSite};
ghost use Rattle.ddf_read.specs.Sums.{other_site, other_sites, AreAdded, AreSums};

use crate::reading::read_from;
use ddf_array::{Part, Site};
use ddf_bay::Bay;
use ddf_bytes::Sector;
use ddf_parity::xor_into;
use std::slice;

/// Where the sector of another position lies, if that is available. None for the position itself.
fn other_site(part: &Part, position: usize, sector: u64, other: usize) -> Option<Site>
    requires part { IsPart part.now }
    requires sector { sector < part.now.shape.blocks }
    ensures { result ≡ other_site part.now.places sector position other }
{
    if other == position {
        return None;
    }
    part.site_at(other, sector)
}

/// A sector of zeros.
pub fn blank() -> Sector
    ensures { result ≡ zeros }
{
    [0; 512]
}

/// Makes each sector zeros.
pub fn clear(into: &mut [Sector])
    ensures { (k : ℕ) → k < length into.old → slice_index_or into.new k [] ≡ zeros }
{
    for at in 0..into.len() {
        into[at] = blank();
    }
}

/// Adds each sector to the one beside it.
pub fn add_each(into: &mut [Sector], from: &[Sector])
    requires { length into.old ≡ length from.now }
    ensures { (k : ℕ) → k < length into.old → slice_index_or into.new k [] ≡ xor (slice_index_or into.old k []) (slice_index_or from.now k []) }
{
    for at in 0..into.len() {
        xor_into(&mut into[at], &from[at]);
    }
}

/// Adds neighbouring sectors from one on, if that is there. They are read in one call. After a failure, their slot.
fn add_from<B: Bay>(
    bay: &mut B,
    first: Option<Site>,
    work: &mut [Sector],
    into: &mut [Sector],
) -> Result<(), usize>
    requires some { 0 < length into.old }
    requires room { length work.old ≡ length into.old }
    requires there { IfSome first (λ one. (one.slot < length (B.disks bay.old).sizes) × (one.lba + length into.old ≤ slice_index (B.disks bay.old).sizes one.slot)) }
    ensures added { B.tells → OnOk result (AreAdded (B.disks bay.old).held (option_to_list first) into.old into.new) }
    ensures among { IfErr result (λ slot. HasSite (λ other. other ≡ slot) (option_to_list first)) }
    ensures failed { IfErr result (Failed (B.disks bay.old) (B.disks bay.new)) }
    ensures reads { OnlyReads (B.disks bay.old) (B.disks bay.new) }
{
    let Some(first) = first else {
        return Ok(());
    };
    match read_from(bay, first, work) {
        Ok(()) => {
            add_each(into, work);
            Ok(())
        }
        Err(slot) => Err(slot),
    }
}

/// Reads the sums of the other cells of neighbouring rows from a sector on, position by position. After a failure, the
/// slot that failed.
pub fn sum_rows<B: Bay>(
    bay: &mut B,
    part: &Part,
    position: usize,
    sector: u64,
    work: &mut [Sector],
    into: &mut [Sector],
) -> Result<(), usize>
    requires part { IsPart part.now }
    requires fits { PartFits (B.disks bay.old).sizes part.now }
    requires some { 0 < length into.old }
    requires room { length work.old ≡ length into.old }
    requires sectors { sector + length into.old ≤ part.now.shape.blocks }
    ensures sums { B.tells → OnOk result (AreSums (B.disks bay.old).held (other_sites part.now.places sector position) into.new) }
    ensures among { IfErr result (λ slot. HasSite (λ other. other ≡ slot) (other_sites part.now.places sector position)) }
    ensures failed { IfErr result (Failed (B.disks bay.old) (B.disks bay.new)) }
    ensures reads { OnlyReads (B.disks bay.old) (B.disks bay.new) }
{
    clear(into);
    for other in 0..part.places.items().len() {
        let first = other_site(part, position, sector, other);
        match add_from(bay, first, work, into) {
            Ok(()) => {}
            Err(slot) => return Err(slot),
        }
    }
    Ok(())
}

/// Reads the sum of the other cells of a row, if all are available. After a failure, the slot that failed.
pub fn read_row<B: Bay>(
    bay: &mut B,
    part: &Part,
    position: usize,
    sector: u64,
    into: &mut Sector,
) -> Result<(), Option<usize>>
    requires part { IsPart part.now }
    requires fits { PartFits (B.disks bay.old).sizes part.now }
    requires sector { sector < part.now.shape.blocks }
    ensures tried { Tried B.tells (Failed (B.disks bay.old) (B.disks bay.new)) (B.disks bay.old).held
        (map row (option_to_list (row_without part.now.places position sector))) result into.new }
    ensures reads { OnlyReads (B.disks bay.old) (B.disks bay.new) }
{
    if !part.has_row(position, sector) {
        return Err(None);
    }
    let mut work = [[0; 512]; 1];
    match sum_rows(
        bay,
        part,
        position,
        sector,
        &mut work,
        slice::from_mut(into),
    ) {
        Ok(()) => Ok(()),
        Err(slot) => Err(Some(slot)),
    }
}
