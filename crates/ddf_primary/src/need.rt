//! What an element needs of its members so that each of its blocks can be had. docs/PLACING.md#needs
ghost use Rattle.std.specs.Prelude.{◌≡◌};
ghost use Rattle.ddf_mirror1e.specs.Copies.{begins_pairs};
ghost use Rattle.ddf_primary.specs.Needs.{need_of, keeps_more_of};

use ddf_mirror1e::Spread;

/// Which members have to be there so that each cell can be read, or made of others.
#[derive(Clone, Copy, PartialEq, Eq)]
pub enum Need {
    /// All: a cell can be had from nothing else.
    All,
    /// One: each of the others has a copy of its cells.
    One,
    /// All but one: the rest of a row gives a cell by parity.
    AllButOne,
    /// One of each member on which first copies lie and the one behind it, round the members: there the second copies
    /// lie. For an even number of adjacent members these are the pairs 0 and 1, 2 and 3, and so on.
    Neighbours(Spread),
}

impl Need {
    /// What the elements of a primary level and qualifier need, by the standard's codes. Of a level that isn't served, all.
    pub fn of_level(level: u8, qualifier: u8) -> Need
        ensures { result ≡ need_of level qualifier }
    {
        match (level, qualifier) {
            (0x01, _) => Need::One,
            (0x04 | 0x05, _) => Need::AllButOne,
            (0x11, 0) => Need::Neighbours(Spread::Adjacent),
            (0x11, 1) => Need::Neighbours(Spread::Offset),
            _ => Need::All,
        }
    }
}

/// Whether a primary level keeps data in more than one place, by the standard's code: RAID 1, 4, 5 and 1E.
pub fn keeps_more_of(level: u8) -> bool
    ensures { result ≡ keeps_more_of level }
{
    matches!(level, 0x01 | 0x04 | 0x05 | 0x11)
}

/// Whether first copies of RAID 1E lie on a member, so that an element needs it or the one behind it.
pub fn begins_pairs(spread: Spread, members: usize, member: usize) -> bool
    ensures { result ≡ begins_pairs spread members member }
{
    match spread {
        Spread::Adjacent => members % 2 == 1 || member % 2 == 0,
        Spread::Offset => true,
    }
}
