//! How the sectors of disks are altered behind the program's back.
ghost use Rattle.std.specs.Prelude.{◌≡◌, ◌≤◌, length};

use crate::disks::Disks;
use crate::numbers::{byte, count};
use crate::run::{Run, runs_of, sectors_of, sync_slot, write_sectors};
use anyhow::bail;
use ddf_bay::MemoryBay;
use ddf_bytes::be32;
use ddf_linux::turn_record;
use ddf_seal::seal;
use std::alloc::Global;

/// How a run of sectors is altered.
#[derive(Drop)]
enum Edit {
    /// These bytes are put in at an offset.
    Put(usize, Vec<u8>),
    /// The same, and it is sealed again.
    Set(usize, Vec<u8>),
    /// Each byte becomes this one.
    Fill(u8),
    /// Each byte of its sector N becomes N modulo 251.
    Number,
    /// It is sealed as the standard says, with the signature that it has.
    Seal,
    /// Its seal becomes one of the other kind.
    Turn,
}

/// Alters runs as a verb says: `VERB SLOTS LBAS SECTORS`, and what the verb takes behind that. All is made sure.
pub fn edit_disks(
    alloc: Global,
    disks: &mut Disks,
    verb: &str,
    words: &[&str],
) -> anyhow::Result<()> {
    let [slots, lbas, sectors, rest @ ..] = words else {
        bail!("no edit is written so");
    };
    let edit = edit_of(alloc, verb, rest)?;
    let bay = disks.bay()?;
    for run in runs_of(alloc, slots, lbas, count(sectors)?)? {
        alter(alloc, bay, run, &edit)?;
    }
    Ok(())
}

fn edit_of(alloc: Global, verb: &str, words: &[&str]) -> anyhow::Result<Edit> {
    match (verb, words) {
        ("put", [at, hex]) => Ok(Edit::Put(count(at)?, hex::decode(alloc, *hex)?)),
        ("set", [at, hex]) => Ok(Edit::Set(count(at)?, hex::decode(alloc, *hex)?)),
        ("fill", [digits]) => Ok(Edit::Fill(byte(alloc, digits)?)),
        ("number", []) => Ok(Edit::Number),
        ("seal", []) => Ok(Edit::Seal),
        ("turn", []) => Ok(Edit::Turn),
        _ => bail!("no edit is written so"),
    }
}

fn alter(alloc: Global, bay: &mut MemoryBay, run: Run, edit: &Edit) -> anyhow::Result<()> {
    let mut sectors = sectors_of(alloc, bay, run)?;
    change(sectors.as_mut_slice().as_flattened_mut(), edit)?;
    write_sectors(bay, run.slot, run.lba, sectors.as_slice())?;
    sync_slot(bay, run.slot)
}

/// Fills a sector of a slot with a byte, and makes it sure.
pub fn fill_sector(
    alloc: Global,
    bay: &mut MemoryBay,
    slot: usize,
    lba: u64,
    byte: u8,
) -> anyhow::Result<()> {
    let count = 1;
    alter(alloc, bay, Run { slot, lba, count }, &Edit::Fill(byte))
}

fn change(bytes: &mut [u8], edit: &Edit) -> anyhow::Result<()> {
    if bytes.len() < 8 {
        bail!("there is no record");
    }
    match edit {
        Edit::Put(at, new) => put(bytes, *at, new.as_slice())?,
        Edit::Set(at, new) => {
            put(bytes, *at, new.as_slice())?;
            seal_again(bytes);
        }
        Edit::Fill(byte) => bytes.fill(*byte),
        Edit::Number => number_sectors(bytes),
        Edit::Seal => seal_again(bytes),
        Edit::Turn => turn_record(bytes),
    }
    Ok(())
}

fn put(bytes: &mut [u8], at: usize, new: &[u8]) -> anyhow::Result<()>
    ensures { length bytes.new ≡ length bytes.old }
{
    if at > bytes.len() || bytes.len() - at < new.len() {
        bail!("the bytes pass the end");
    }
    bytes[at..at + new.len()].copy_from_slice(new);
    Ok(())
}

fn seal_again(bytes: &mut [u8])
    requires { 8 ≤ length bytes.old }
{
    let signature = be32(bytes, 0);
    seal(bytes, signature);
}

/// Fills each sector N with N modulo 251.
pub fn number_sectors(bytes: &mut [u8]) {
    for (place, sector) in bytes.chunks_mut(512).enumerate() {
        sector.fill((place % 251) as u8);
    }
}
