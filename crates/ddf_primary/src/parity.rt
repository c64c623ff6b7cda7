//! Where parity lies in the rows of RAID 4 and 5, and in which order the others hold data: in this alone the qualifiers differ.
//! docs/PLACING.md#primary-levels
ghost use Rattle.std.specs.Prelude.{◌≡◌, ◌≢◌, ◌<◌, ◌≤◌, ◌+◌, slice_get};
ghost use Rattle.ddf_primary.specs.Cells.{parity_on, data_around};

/// Which member of a row holds the parity, and in which order the others hold the data.
#[derive(Clone, Copy, PartialEq, Eq)]
pub enum ParityLayout {
    /// RAID 4 with the parity in the first extent.
    Raid4First,
    /// RAID 4 with the parity in the last extent.
    Raid4Last,
    /// RAID 5, rotating parity 0 with data restart.
    Raid5ZeroRestart,
    /// RAID 5, rotating parity N with data restart.
    Raid5LastRestart,
    /// RAID 5, rotating parity N with data continuation.
    Raid5LastContinuation,
}

impl ParityLayout {
    /// The member with the parity of a row.
    pub(crate) fn parity_of(self, members: u16, row: u64) -> u16
        requires { 0 < members }
        ensures value { result ≡ parity_on self members row }
        ensures within { result < members }
    {
        let turn = (row % u64::from(members)) as u16;
        match self {
            ParityLayout::Raid4First => 0,
            ParityLayout::Raid4Last => members - 1,
            ParityLayout::Raid5ZeroRestart => turn,
            ParityLayout::Raid5LastRestart | ParityLayout::Raid5LastContinuation => {
                members - 1 - turn
            }
        }
    }

    /// The member with data strip number `strip` of a row whose parity is on `parity`.
    pub(crate) fn data_member(self, members: u16, parity: u16, strip: u16) -> u16
        requires parity_within { parity < members }
        requires strip_within { strip + 1 < members }
        ensures { slice_get (data_around self members parity) strip ≡ Some result }
    {
        match self {
            ParityLayout::Raid5LastContinuation => {
                let after = members - 1 - parity;
                if strip < after {
                    parity + 1 + strip
                } else {
                    strip - after
                }
            }
            _ => { if strip < parity { strip } else { strip + 1 } }
        }
    }

    /// The number of the data strip that a member holds in a row whose parity is on `parity`.
    pub(crate) fn strip_of(self, members: u16, parity: u16, member: u16) -> u16
        requires parity_within { parity < members }
        requires within { member < members }
        requires no_parity { member ≢ parity }
        ensures value { slice_get (data_around self members parity) result ≡ Some member }
        ensures within { result + 1 < members }
    {
        match self {
            ParityLayout::Raid5LastContinuation => {
                if member > parity {
                    member - parity - 1
                } else {
                    members - 1 - parity + member
                }
            }
            _ => { if member < parity { member } else { member - 1 } }
        }
    }
}
