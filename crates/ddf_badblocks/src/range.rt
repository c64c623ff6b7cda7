//! Bad sectors of a disk and their spare ones.
ghost use Rattle.std.specs.Prelude.{◌≡◌};
ghost use Rattle.ddf_badblocks.specs.Ranges.{at_offset, share};

/// Bad sectors of a disk that follow one another, and as many spare sectors: each of them stands for one.
#[derive(Clone, Copy, PartialEq, Eq)]
pub struct Range {
    /// The LBA of the first bad sector.
    pub start: u64,
    /// The LBA of the first spare sector.
    pub spare: u64,
    /// How many there are of each.
    pub count: u64,
}

/// The sector so many behind an LBA, or else the other one where that isn't on a slot of so many sectors.
pub(crate) fn at_offset(size: u64, lba: u64, first: u64, offset: u64) -> u64
    ensures { result ≡ at_offset size lba first offset }
{
    let at = u128::from(first) + u128::from(offset);
    if at < u128::from(size) {
        at as u64
    } else {
        lba
    }
}

/// Whether two runs of sectors, each from an LBA on, have a sector in common.
pub(crate) fn share(one: u64, many: u64, other: u64, more: u64) -> bool
    ensures { result ≡ share one many other more }
{
    u128::from(one) < u128::from(other) + u128::from(more)
        && u128::from(other) < u128::from(one) + u128::from(many)
}
