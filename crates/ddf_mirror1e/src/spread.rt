//! The two ways of RAID 1E, by the standard's qualifiers.

/// How the two copies of a strip lie.
#[derive(Clone, Copy, PartialEq, Eq)]
pub enum Spread {
    /// On neighbouring members of a row, which goes on in the next row.
    Adjacent,
    /// On neighbouring members of two rows, one below the other.
    Offset,
}

impl Spread {
    ghost use Rattle.ddf_mirror1e.specs.Codes.{spread_of};
    ghost use Rattle.std.specs.Prelude.{◌≡◌};

    /// What a qualifier names.
    pub(crate) fn from_code(qualifier: u8) -> Option<Spread>
        ensures { result ≡ spread_of qualifier }
    {
        match qualifier {
            0 => Some(Spread::Adjacent),
            1 => Some(Spread::Offset),
            _ => None,
        }
    }
}
