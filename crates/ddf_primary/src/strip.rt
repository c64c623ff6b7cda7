//! Blocks and strips: the arithmetic that all levels with rows share.
ghost use Rattle.std.specs.Prelude.{◌≡◌, ℕ, ◌<◌, ◌≤◌, ◌+◌, ◌*◌, ◌/◌, ◌%◌, ◌^◌};

/// Where a block stands among the data strips of whole rows.
#[derive(Clone, Copy)]
pub(crate) struct Strip {
    pub(crate) row: u64,
    /// The number of the strip in its row.
    pub(crate) number: u16,
    /// The sector on the strip's member.
    pub(crate) sector: u64,
}

/// The strip of a block, where each row has `columns` data strips of `strip` sectors.
pub(crate) fn strip_of_block(block: u64, strip: u64, columns: u16) -> Strip
    requires some_strip { 1 ≤ strip }
    requires some_columns { 1 ≤ columns }
    ensures row { result.row ≡ block / strip / columns }
    ensures number { result.number ≡ block / strip % columns }
    ensures sector { result.sector ≡ block / strip / columns * strip + block % strip }
{
    let count = block / strip;
    let row = count / u64::from(columns);
    Strip {
        row,
        number: (count % u64::from(columns)) as u16,
        sector: row * strip + block % strip,
    }
}

/// The block at a sector of a data strip: the strip's number in its row, and the sector on its member.
pub(crate) fn block_of_strip(number: u16, sector: u64, strip: u64, columns: u16) -> u64
    requires some_strip { 1 ≤ strip }
    requires number_within { number < columns }
    requires small_sector { sector < 2 ^ 48 }
    requires small_strip { strip ≤ 2 ^ 31 }
    ensures { result ≡ (sector / strip * columns + number) * strip + sector % strip }
{
    (sector / strip * u64::from(columns) + u64::from(number)) * strip + sector % strip
}
