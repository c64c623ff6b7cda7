//! What disks hold where a scenario says what they are to hold.
use crate::disks::Disks;
use crate::numbers::count;
use crate::run::{Run, runs_of, sectors_of};
use anyhow::bail;
use ddf_bay::MemoryBay;
use ddf_bytes::be32;
use ddf_linux::linux_crc32;
use std::alloc::Global;

/// Looks for bytes at an offset behind each of these LBAs of each of these slots: `SLOTS LBAS AT HEX`. Gives a line for each place that
/// holds others.
pub fn compare(alloc: Global, disks: &mut Disks, words: &[&str]) -> anyhow::Result<String> {
    let [slots, lbas, at, hex] = words else {
        bail!("nothing is compared so");
    };
    let bytes = hex::decode(alloc, *hex)?;
    let at = count(at)?;
    let sectors = at.saturating_add(bytes.len()).div_ceil(512);
    let bay = disks.bay()?;
    let mut text = String::new(alloc);
    for run in runs_of(alloc, slots, lbas, sectors)? {
        let found = bytes_at(alloc, bay, run, at, bytes.len())?;
        if found.as_slice() != bytes.as_slice() {
            let digits = hex::encode(alloc, found.as_slice())?;
            let line = format!(in alloc; "slot {} sector {}: {digits}\n", run.slot, run.lba)?;
            text.push_str(line.as_str())?;
        }
    }
    Ok(text)
}

/// Looks at the records of so many sectors at each of these LBAs of each of these slots: `SLOTS LBAS SECTORS`. Gives a line for each that isn't
/// sealed as Linux's mdadm counts the CRC.
pub fn look_for_linux(alloc: Global, disks: &mut Disks, words: &[&str]) -> anyhow::Result<String> {
    let [slots, lbas, sectors] = words else {
        bail!("nothing is looked at so");
    };
    let bay = disks.bay()?;
    let mut text = String::new(alloc);
    for run in runs_of(alloc, slots, lbas, count(sectors)?)? {
        let mut record = sectors_of(alloc, bay, run)?;
        if !is_for_linux(record.as_mut_slice().as_flattened_mut()) {
            let line = format!(in alloc;
                "slot {} sector {}: not sealed for Linux\n",
                run.slot, run.lba
            )?;
            text.push_str(line.as_str())?;
        }
    }
    Ok(text)
}

/// Whether the CRC in bytes 4 to 7 of a record is Linux's of all its bytes, with these four taken as FF.
fn is_for_linux(record: &mut [u8]) -> bool {
    if record.len() < 8 {
        return false;
    }
    let stored = be32(record, 4);
    record[4..8].fill(0xFF);
    linux_crc32(record) == stored
}

/// So many bytes of a run, from an offset on.
fn bytes_at(
    alloc: Global,
    bay: &mut MemoryBay,
    run: Run,
    at: usize,
    count: usize,
) -> anyhow::Result<Vec<u8>> {
    let sectors = sectors_of(alloc, bay, run)?;
    let bytes = sectors.as_slice().as_flattened();
    if at > bytes.len() || bytes.len() - at < count {
        bail!("the bytes pass the end");
    }
    Ok(Vec::from_slice(alloc, &bytes[at..at + count])?)
}
