//! A cell: a member of an element, and a sector of its extent; and two of them. docs/PLACING.md#primary-levels

/// A place on one member of an element.
#[derive(Clone, Copy, PartialEq, Eq)]
pub struct Cell {
    /// The member's place in the element's member list, from 0.
    pub member: u16,
    /// The sector, counted from the start of the member's extent.
    pub sector: u64,
    /// The data row that the sector is in, from 0: `sector` divided by the sectors that such a row takes of each member.
    pub row: u64,
}

/// Both cells of a block of a level that holds it on two members.
#[derive(Clone, Copy)]
pub struct Twins {
    /// The one on the lower member.
    pub low: Cell,
    /// The one on the higher member.
    pub high: Cell,
}
