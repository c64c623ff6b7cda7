//! The names of the primary RAID levels.
ghost use Rattle.std.specs.Prelude.{◌≡◌};
ghost use Rattle.ddf_text.specs.Levels.{level_name};

/// The name of a primary RAID level, by its code in the standard.
pub(crate) fn level_name(level: u8) -> &'static str
    ensures { result.now ≡ level_name level }
{
    match level {
        0x00 => "RAID 0",
        0x01 => "RAID 1",
        0x03 => "RAID 3",
        0x04 => "RAID 4",
        0x05 => "RAID 5",
        0x06 => "RAID 6",
        0x07 => "MDF",
        0x0F => "JBOD",
        0x11 => "RAID 1E",
        0x15 => "RAID 5E",
        0x1F => "Concatenation",
        0x25 => "RAID 5EE",
        0x35 => "RAID 5R",
        _ => "unknown",
    }
}
