//! The plain part of a name, in front of its padding.
ghost use Rattle.std.specs.Prelude.{◌≡◌, ◌≤◌, length, take};
ghost use Rattle.std.specs.Str.{IsAscii};
ghost use Rattle.ddf_name.specs.Names.{are_all, is_plain, is_plain_name, plain_len};

/// Whether characters stand in front, and behind them spaces alone or zeros alone.
pub(crate) fn is_plain_name(name: &[u8]) -> bool
    ensures { result ≡ is_plain_name name.now }
{
    let count = plain_len(name);
    let padding = &name[count..];
    count != 0 && (are_all(padding, b' ') || are_all(padding, 0))
}

fn are_all(bytes: &[u8], value: u8) -> bool
    ensures { result ≡ are_all value bytes.now }
{
    bytes.iter().all(|byte| *byte == value)
}

/// How many characters stand in front of the padding.
pub(crate) fn plain_len(name: &[u8]) -> usize
    ensures count { result ≡ plain_len name.now }
    ensures bound { result ≤ length name.now }
    ensures ascii { IsAscii (take result name.now) }
{
    let mut count = 0;
    while count < name.len() && is_plain(name[count]) {
        count += 1;
    }
    count
}

/// Whether a byte is a character that prints, and no space.
fn is_plain(byte: u8) -> bool
    ensures { result ≡ is_plain byte }
{
    matches!(byte, 0x21..=0x7E)
}
