//! The numbers of a disk's records.
ghost use Rattle.std.specs.Prelude.{◌≡◌};
ghost use Rattle.ddf_moving.specs.Numbers.{same_numbers, same_records};

use ddf_copy::DiskCopy;
use ddf_header::Geometry;

/// Whether two disks can be in one group as they are: their numbers of disks, of arrays, of members of a record, of a record's sectors,
/// and of record slots are equal.
pub fn same_numbers(one: &DiskCopy, other: &DiskCopy) -> bool
    ensures { result ≡ same_numbers one.now other.now }
{
    let own = &one.header.geometry;
    let its = &other.header.geometry;
    own.max_disks == its.max_disks
        && own.max_arrays == its.max_arrays
        && own.max_members == its.max_members
        && own.record_length == its.record_length
        && one.slots.items().len() == other.slots.items().len()
}

/// Whether a record of one geometry is one of another as it is.
pub(crate) fn same_records(one: &Geometry, other: &Geometry) -> bool
    ensures { result ≡ same_records one.now other.now }
{
    one.max_members == other.max_members && one.record_length == other.record_length
}
