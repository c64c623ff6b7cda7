//! Pieces that come from a source.
ghost use Rattle.std.specs.Prelude.{◌≡◌, ◌≤◌, ◌<◌, true, Ok};
ghost use Rattle.ddf_pieces.specs.Coming.{IsFilled};

use crate::PieceFault;
use ddf_bytes::{Source, fill_from};

/// Whether a piece is there. The first piece is; each later one is read from the source, and is there where the source has all of its bytes left.
pub(crate) fn has_piece<S: Source>(
    source: &mut S,
    at: u64,
    piece: &mut [u8],
) -> Result<bool, PieceFault>
    ensures first { at ≡ 0 → (result ≡ Ok true) × (piece.new ≡ piece.old) × (S.input source.new ≡ S.input source.old) }
    ensures later { 0 < at → IsFilled S.tells (S.input source.old) (S.input source.new) piece.new result }
    ensures never_falls { (S.input source.old).faults ≤ (S.input source.new).faults }
{
    if at == 0 {
        return Ok(true);
    }
    fill_piece(source, piece)
}

/// Whether a source has all bytes of a piece left, which it reads.
fn fill_piece<S: Source>(source: &mut S, piece: &mut [u8]) -> Result<bool, PieceFault>
    ensures filled { IsFilled S.tells (S.input source.old) (S.input source.new) piece.new result }
    ensures never_falls { (S.input source.old).faults ≤ (S.input source.new).faults }
{
    match fill_from(source, piece) {
        Ok(found) if found == piece.len() => Ok(true),
        Ok(_) => Ok(false),
        Err(_) => Err(PieceFault::Source),
    }
}
