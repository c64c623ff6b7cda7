//! Entries of arrays over the bytes of others.
ghost use Rattle.std.specs.Prelude.{◌≡◌, false, option_copied};
ghost use Rattle.std.specs.Option.{ForSome, option_map_or};
ghost use Rattle.ddf_tables.specs.declared.arrays.ArrayEntry.{ArrayEntry};
ghost use Rattle.ddf_tables.specs.declared.arrays.ArrayRow.TheVariants.{Entry};
ghost use Rattle.ddf_tables.specs.Rows.{is_unused};
ghost use Rattle.ddf_tables.specs.Arrays.{IsArrayRow};
ghost use Rattle.ddf_tables.specs.Building.{array_over, kept_array_rest, new_array_rest};

use crate::arrays::{ArrayEntry, FIELDS};
use crate::layout::ARRAY_KIND_AT;
use ddf_seal::{clear, place};

impl ArrayEntry {
    /// This entry's fields over the bytes of an old entry that no field names, all of which stay. Where there is none, they
    /// are FF, and zeros in the four bytes of the type. `self.rest` is not read (SNIA DDF 2.0; what is kept is profile).
    pub fn over(self, bytes: Option<&ArrayEntry>) -> ArrayEntry
        ensures exact { result ≡ array_over (option_copied bytes.entry) self }

        // It can be written in a row, where the old one can and the GUID is that of a used row.
        ensures writable { ForSome (option_copied bytes.entry) (λ old. IsArrayRow (Entry old))
            → is_unused self.guid ≡ false → IsArrayRow (Entry result) }
    {
        ArrayEntry {
            rest: kept_rest(bytes),
            ..self
        }
    }
}

fn kept_rest(bytes: Option<&ArrayEntry>) -> [u8; 64]
    ensures { (entry : ArrayEntry) → result ≡ kept_array_rest (option_copied bytes.entry) entry }
{
    match bytes {
        Some(old) => old.rest,
        None => new_rest(),
    }
}

#[tactic(auto, unfolding(crate::specs::Building::new_array_rest))]
fn new_rest() -> [u8; 64]
    ensures { (entry : ArrayEntry) → result ≡ new_array_rest entry }
{
    let mut rest = [0xFF; 64];
    place(&mut rest, ARRAY_KIND_AT, &[0; 4]);
    clear(&mut rest, &FIELDS);
    rest
}
