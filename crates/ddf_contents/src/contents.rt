//! What a disk holds that isn't this program's, by the marks of others.
use crate::moved::header_before_end;
use crate::sectors::{has_at, sector_of, size_of};
use ddf_bay::Bay;
use ddf_bytes::be32;
use ddf_header::HEADER_SIGNATURE;
use std::fmt;

/// How many sectors before its end some controllers keep the anchor of a disk.
const OTHER_ANCHOR: u64 = 257;

/// Something that a disk may hold.
#[derive(Clone, Copy, PartialEq, Eq)]
pub enum Content {
    /// An anchor in the last sector, in the other byte order.
    OtherOrder,
    /// An anchor, or another header, 257 sectors before the end.
    EarlyAnchor,
    /// One there in the other byte order.
    OtherPlace,
    /// One in its place that names no second copy of the records.
    OneCopy,
    /// A header so many sectors before the end.
    Moved(u64),
    /// A file system or the like, by its name.
    Named(&'static str),
}

/// The first bytes of the records of Linux's md.
const MD_MAGIC: [u8; 4] = [0xFC, 0x4E, 0x2B, 0xA9];

/// The sectors at the start of a disk that may have a mark.
const MARKED: [u64; 7] = [128, 16, 8, 7, 2, 1, 0];

/// What a disk holds, by the first mark that is there.
pub fn content_of<B: Bay>(bay: &mut B, slot: usize) -> Option<Content> {
    if let Some(odd) = odd_records_of(bay, slot) {
        return Some(odd);
    }
    if is_md_090(bay, slot) {
        return Some(Content::Named("md 0.90"));
    }
    if let Some(distance) = header_before_end(bay, slot) {
        return Some(Content::Moved(distance));
    }
    for lba in &MARKED {
        if let Some(name) = name_at(bay, slot, *lba) {
            return Some(Content::Named(name));
        }
    }
    None
}

/// What the mark in a sector is one of.
fn name_at<B: Bay>(bay: &mut B, slot: usize, lba: u64) -> Option<&'static str> {
    let sector = sector_of(bay, slot, lba)?;
    match lba {
        128 if has_at(&sector, 64, b"_BHRfS_M") => Some("btrfs"),
        128 | 16 if has_at(&sector, 52, b"ReIsEr") => Some("reiserfs"),
        8 | 0 if has_at(&sector, 0, &MD_MAGIC) => Some("md"),
        7 if has_at(&sector, 502, b"SWAPSPACE2") => Some("swap"),
        2 if has_at(&sector, 56, &[0x53, 0xEF]) => Some("ext2, ext3 or ext4"),
        1 if has_at(&sector, 0, b"LABELONE") => Some("LVM"),
        1 if has_at(&sector, 0, b"EFI PART") => Some("GPT partitions"),
        0 if has_at(&sector, 0, b"XFSB") => Some("xfs"),
        0 if has_at(&sector, 510, &[0x55, 0xAA]) => Some("a partition table or a boot sector"),
        _ => None,
    }
}

/// Records of the standard in another place or byte order.
pub fn odd_records_of<B: Bay>(bay: &mut B, slot: usize) -> Option<Content> {
    let size = size_of(bay, slot);
    if signature_at(bay, slot, size.checked_sub(1)) == Some(HEADER_SIGNATURE.swap_bytes()) {
        return Some(Content::OtherOrder);
    }
    match signature_at(bay, slot, size.checked_sub(OTHER_ANCHOR)) {
        Some(found) if found == HEADER_SIGNATURE => Some(Content::EarlyAnchor),
        Some(found) if found == HEADER_SIGNATURE.swap_bytes() => Some(Content::OtherPlace),
        _ => None,
    }
}

/// The first four bytes of a sector.
fn signature_at<B: Bay>(bay: &mut B, slot: usize, lba: Option<u64>) -> Option<u32> {
    let sector = sector_of(bay, slot, lba?)?;
    Some(be32(&sector, 0))
}

/// Whether Linux's md keeps its records of version 0.90 in the last 64 KiB that are whole.
fn is_md_090<B: Bay>(bay: &mut B, slot: usize) -> bool {
    let size = size_of(bay, slot);
    let Some(lba) = (size / 128 * 128).checked_sub(128) else {
        return false;
    };
    match sector_of(bay, slot, lba) {
        Some(sector) => has_at(&sector, 0, &MD_MAGIC),
        None => false,
    }
}

impl fmt::Display for Content {
    fn fmt<W: fmt::Write>(&self, f: &mut fmt::Formatter<W>) -> fmt::Result {
        match self {
            Content::OtherOrder => write!(
                f,
                "DDF records of a controller, in the other byte order, which this program doesn't read"
            ),
            Content::EarlyAnchor => write!(
                f,
                "DDF records of a controller, 257 sectors before the end"
            ),
            Content::OtherPlace => write!(
                f,
                "DDF records of a controller, 257 sectors before the end, which this program doesn't read"
            ),
            Content::OneCopy => write!(
                f,
                "one copy of its DDF records, and this program reads disks with two: mdadm -E reads it, if mdadm wrote it"
            ),
            Content::Moved(distance) => write!(
                f,
                "DDF records {distance} sectors before its end, without their anchor: it was wiped, cut short or grown"
            ),
            Content::Named(name) => write!(f, "{name}"),
        }
    }
}
