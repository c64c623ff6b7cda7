//! Entries of disks over the bytes of others.
ghost use Rattle.std.specs.Prelude.{◌≡◌, false, option_copied};
ghost use Rattle.std.specs.Option.{ForSome};
ghost use Rattle.ddf_tables.specs.declared.disks.DiskEntry.{DiskEntry};
ghost use Rattle.ddf_tables.specs.declared.disks.DiskRow.TheVariants.{Entry};
ghost use Rattle.ddf_tables.specs.Rows.{is_unused};
ghost use Rattle.ddf_tables.specs.Disks.{IsDiskRow};
ghost use Rattle.ddf_tables.specs.Building.{disk_over, kept_disk_rest, new_disk_rest};

use crate::disks::{DiskEntry, FIELDS};
use crate::layout::DISK_BLOCK_SIZE_AT;
use ddf_bytes::put16;
use ddf_seal::clear;

impl DiskEntry {
    /// This entry's fields over the bytes of an old entry that no field names, or over FF where there is none. The block
    /// size, in bytes, is written in its place in both; every other unread byte of the old entry stays. `self.rest` is not
    /// read (SNIA DDF 2.0; what is kept is profile).
    pub fn over(self, bytes: Option<&DiskEntry>, block_size: u16) -> DiskEntry
        ensures exact { result ≡ disk_over (option_copied bytes.entry) block_size self }

        // It can be written in a row, where the old one can and the GUID is that of a used row.
        ensures writable { ForSome (option_copied bytes.entry) (λ old. IsDiskRow (Entry old))
            → is_unused self.guid ≡ false → IsDiskRow (Entry result) }
    {
        let mut rest = kept_rest(bytes);
        put16(&mut rest, DISK_BLOCK_SIZE_AT, block_size);
        DiskEntry { rest, ..self }
    }
}

fn kept_rest(bytes: Option<&DiskEntry>) -> [u8; 64]
    ensures { (entry : DiskEntry) → result ≡ kept_disk_rest (option_copied bytes.entry) entry }
{
    match bytes {
        Some(old) => old.rest,
        None => new_rest(),
    }
}

#[tactic(auto, unfolding(crate::specs::Building::new_disk_rest))]
fn new_rest() -> [u8; 64]
    ensures { (entry : DiskEntry) → result ≡ new_disk_rest entry }
{
    let mut rest = [0xFF; 64];
    clear(&mut rest, &FIELDS);
    rest
}
