//! The mask of a disk's bad block log: what of it is seen in place of what stands there.
ghost use Rattle.std.specs.Prelude.{◌≡◌, ◌*◌, ◌<◌, ◌≤◌, ◌^◌, IfOk, length, take};
ghost use Rattle.ddf_header.specs.Geometry.{section_of};
ghost use Rattle.ddf_tables.specs.BadBlocks.{log_bytes};
ghost use Rattle.ddf_copy.specs.Written.{CanBeCopy, HasLog};
ghost use Rattle.ddf_hidden_logs.specs.Recounts.{mask_by, mask_of_log, mask_under, recounted};

use crate::mask::Mask;
use ddf_bytes::{NoMemory, Sector, put16};
use ddf_copy::DiskCopy;
use ddf_header::{BAD_BLOCKS, Header, Section};
use ddf_seal::seal;
use ddf_tables::layout::LOG_COUNT_AT;
use ddf_tables::{BadBlockLog, encode_bad_blocks};
use std::alloc::Global;

const SIGNATURE: u32 = 0xABAD_B10C;

/// The mask by which a copy's log shows so many entries, on a disk with this anchor: none where it has as many, or there is no log.
pub(crate) fn mask_under(
    alloc: Global,
    anchor: &Header,
    copy: &DiskCopy,
    count: u16,
) -> Result<Option<Mask>, NoMemory>
    requires { CanBeCopy copy.now }
    ensures { IfOk result (λ found. found ≡ mask_under anchor.now copy.now count) }
{
    let section = &copy.header.geometry.sections[BAD_BLOCKS];
    match &copy.bad {
        Some(log) => mask_by(alloc, anchor, section, log, count),
        None => Ok(None),
    }
}

fn mask_by(
    alloc: Global,
    anchor: &Header,
    section: &Section,
    log: &BadBlockLog,
    count: u16,
) -> Result<Option<Mask>, NoMemory>
    requires size { length log.now.rest ≡ 512 * section.now.length }
    requires some { 0 < section.now.length }
    ensures { IfOk result (λ found. found ≡ mask_by anchor.now section.now (Some log.now) count) }
{
    if log.count() == count {
        return Ok(None);
    }
    let mask = mask_of_log(alloc, anchor, section, log, count)?;
    Ok(Some(mask))
}

fn mask_of_log(
    alloc: Global,
    anchor: &Header,
    section: &Section,
    log: &BadBlockLog,
    count: u16,
) -> Result<Mask, NoMemory>
    requires size { length log.now.rest ≡ 512 * section.now.length }
    requires some { 0 < section.now.length }
    ensures { IfOk result (λ mask. mask ≡ mask_of_log anchor.now section.now log.now count) }
{
    let mut bytes = vec![in alloc; 0; 512 * section.length as usize]?;
    encode_bad_blocks(log, &mut bytes);
    let below = front_of(bytes.as_slice());
    recount(&mut bytes, count);
    Ok(Mask {
        primary: anchor.primary_lba,
        secondary: anchor.secondary_lba,
        offset: section.offset,
        below,
        shown: front_of(bytes.as_slice()),
    })
}

/// Writes another count of entries into the section of a log, and seals it anew.
#[tactic(auto, unfolding(crate::specs::Recounts::recounted))]
fn recount(section: &mut [u8], count: u16)
    requires { 512 ≤ length section.old }
    ensures exact { section.new ≡ recounted count section.old }
    ensures size { length section.new ≡ length section.old }
{
    put16(section, LOG_COUNT_AT, count);
    seal(section, SIGNATURE);
}

/// The first sector of a section.
fn front_of(section: &[u8]) -> Sector
    requires { 512 ≤ length section.now }
    ensures { result ≡ take 512 section.now }
{
    let mut front = [0; 512];
    front.copy_from_slice(&section[..512]);
    front
}
