//! Big-endian numbers within a slice of bytes, as all of the format's numbers stand.
ghost use Rattle.std.specs.Prelude.{◌≡◌, ◌+◌, ◌≤◌, length};
ghost use Rattle.std.specs.Int.{w16, w32, w64, to_be_bytes};
ghost use Rattle.ddf_bytes.specs.Bytes.{number_at, with_bytes_at};

/// The number in the two bytes from `at` on.
pub fn be16(from: &[u8], at: usize) -> u16
    requires { at + 2 ≤ length from.now }
    ensures { result ≡ number_at w16 from.now at }
{
    u16::from_be_bytes([from[at], from[at + 1]])
}

/// The number in the four bytes from `at` on.
pub fn be32(from: &[u8], at: usize) -> u32
    requires { at + 4 ≤ length from.now }
    ensures { result ≡ number_at w32 from.now at }
{
    u32::from_be_bytes([from[at], from[at + 1], from[at + 2], from[at + 3]])
}

/// The number in the eight bytes from `at` on.
pub fn be64(from: &[u8], at: usize) -> u64
    requires { at + 8 ≤ length from.now }
    ensures { result ≡ number_at w64 from.now at }
{
    u64::from_be_bytes([
        from[at],
        from[at + 1],
        from[at + 2],
        from[at + 3],
        from[at + 4],
        from[at + 5],
        from[at + 6],
        from[at + 7],
    ])
}

/// Writes the number into the two bytes from `at` on.
pub fn put16(into: &mut [u8], at: usize, value: u16)
    requires { at + 2 ≤ length into.old }
    ensures written { into.new ≡ with_bytes_at into.old at (to_be_bytes w16 value) }
    ensures number { number_at w16 into.new at ≡ value }
{
    into[at..at + 2].copy_from_slice(&value.to_be_bytes());
}

/// Writes the number into the four bytes from `at` on.
pub fn put32(into: &mut [u8], at: usize, value: u32)
    requires { at + 4 ≤ length into.old }
    ensures written { into.new ≡ with_bytes_at into.old at (to_be_bytes w32 value) }
    ensures number { number_at w32 into.new at ≡ value }
{
    into[at..at + 4].copy_from_slice(&value.to_be_bytes());
}

/// Writes the number into the eight bytes from `at` on.
pub fn put64(into: &mut [u8], at: usize, value: u64)
    requires { at + 8 ≤ length into.old }
    ensures written { into.new ≡ with_bytes_at into.old at (to_be_bytes w64 value) }
    ensures number { number_at w64 into.new at ≡ value }
{
    into[at..at + 8].copy_from_slice(&value.to_be_bytes());
}
