//! The sizes of pieces: a range of any length goes by them, in memory for one. docs/LIMITS.md#a-call
ghost use Rattle.std.specs.Prelude.{◌≡◌, ◌≤◌, ◌*◌, ◌/◌, ℕ, List, length};
ghost use Rattle.ddf_pieces.specs.Coming.{AreSectorsOf512};
ghost use Rattle.ddf_pieces.specs.Pieces.{bytes_of, piece_of, room_for};

use ddf_bytes::Sector;

/// The blocks of a piece of a command (profile).
const PIECE_BLOCKS: u64 = 2048;

/// The blocks for which a command has room that reads or writes so many: those of its first piece, and at least one.
pub fn room_for(count: u64) -> usize
    ensures { result ≡ room_for count }
{
    count.min(PIECE_BLOCKS).max(1) as usize
}

/// The blocks of the next piece: so many, or what is left.
pub(crate) fn piece_of(each: usize, left: u64) -> usize
    ensures { result ≡ piece_of each left }
{
    left.min(each as u64) as usize
}

/// The whole sectors of which these are the bytes.
pub fn sectors_in(bytes: &[u8]) -> &[Sector]
    requires { 512 * (length bytes.now / 512) ≡ length bytes.now }
    ensures count { 512 * length result.now ≡ length bytes.now }
    ensures bytes { bytes_of result.now ≡ bytes.now }
    ensures whole { AreSectorsOf512 result.now }
{
    let (sectors, _) = bytes.as_chunks::<512>();
    sectors
}
