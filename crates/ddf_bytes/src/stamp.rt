//! The time and the chance that a call is given, so that what it makes of its words is a function of them.
ghost use Rattle.std.specs.Prelude.{◌≡◌};
ghost use Rattle.ddf_bytes.specs.Stamps.{timestamp_of};

/// Seconds from the beginning of 1970 to that of 1980, from which the standard counts.
const SECONDS_TO_1980: u64 = 315_532_800;

/// The moment and the chance from which new names are made.
#[derive(Clone, Copy, PartialEq, Eq)]
pub struct Stamp {
    /// Seconds since 1970 began.
    pub seconds: u64,
    /// Random bits.
    pub salt: u128,
}

impl Stamp {
    /// Seconds since 1980 began, 0 before and the greatest number of 32 bits after what fits.
    pub fn timestamp(&self) -> u32
        ensures { result ≡ timestamp_of self.now }
    {
        let seconds = self.seconds.saturating_sub(SECONDS_TO_1980);
        seconds.min(u64::from(u32::MAX)) as u32
    }
}
