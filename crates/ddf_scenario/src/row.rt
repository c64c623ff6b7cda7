//! Rows of blocks, as pictures of arrays show them.
use crate::disks::Disks;
use crate::edit::fill_sector;
use crate::numbers::number;
use anyhow::bail;
use std::alloc::Global;

/// Fills the sector at an LBA of each disk as its mark says: with the byte N + 1 where the block N lies there, with the exclusive-or of
/// the row's blocks for `P`, and with zeros for `-`.
pub fn fill_row(alloc: Global, disks: &mut Disks, words: &[&str]) -> anyhow::Result<()> {
    let [lba, marks @ ..] = words else {
        bail!("no row is written so");
    };
    let lba = number(lba)?;
    let parity = parity_of(marks)?;
    let bay = disks.bay()?;
    for (slot, mark) in marks.iter().enumerate() {
        fill_sector(alloc, bay, slot, lba, byte_of(mark, parity)?)?;
    }
    Ok(())
}

fn parity_of(marks: &[&str]) -> anyhow::Result<u8> {
    let mut parity = 0;
    for mark in marks {
        parity ^= byte_of(mark, 0)?;
    }
    Ok(parity)
}

/// The byte that fills the sector of a mark in a row of this parity.
fn byte_of(mark: &str, parity: u8) -> anyhow::Result<u8> {
    match mark {
        "P" => Ok(parity),
        "-" => Ok(0),
        block => Ok((number(block)? % 255) as u8 + 1),
    }
}
