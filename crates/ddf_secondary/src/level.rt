//! The secondary levels, by the standard's codes. docs/PLACING.md#secondary-levels
ghost use Rattle.std.specs.Prelude.{◌≡◌, Bool, true, false};
ghost use Rattle.ddf_secondary.specs.Arrangement.{served_level, goes_by_rows};

/// How an array lays its blocks over its elements: the secondary level.
#[derive(Clone, Copy, PartialEq, Eq)]
pub enum SecondaryLevel {
    /// 00: a unit of each element in turn, in as many rows as the least element has.
    Striped,
    /// 01: every element holds every block.
    Mirrored,
    /// 02: one element after another.
    Concatenated,
    /// 03: a unit of each element in turn, of those that still have rows.
    Spanned,
}

impl SecondaryLevel {
    /// The secondary level of one of the standard's codes.
    pub(crate) fn from_code(code: u8) -> Option<SecondaryLevel>
        ensures { result ≡ served_level code }
    {
        match code {
            0 => Some(SecondaryLevel::Striped),
            1 => Some(SecondaryLevel::Mirrored),
            2 => Some(SecondaryLevel::Concatenated),
            3 => Some(SecondaryLevel::Spanned),
            _ => None,
        }
    }

    /// Whether the level lays units of the elements in rows.
    pub(crate) fn goes_by_rows(self) -> bool
        ensures { result ≡ goes_by_rows self }
    {
        matches!(self, SecondaryLevel::Striped | SecondaryLevel::Spanned)
    }
}
