//! In which pieces blocks are written: so that they end where stripes end.
ghost use Rattle.std.specs.Prelude.{◌≡◌, ◌+◌, ◌<◌, ◌≤◌, ◌^◌, fold};
ghost use Rattle.ddf_array.specs.Volume.{IsPart, IsVolume};
ghost use Rattle.ddf_write.specs.Looking.{blocks_of_stripes, in_stripes, in_stripes_of, piece_blocks, piece_of, stripe_blocks};

use ddf_array::{Part, View};
use ddf_read::keeps_parity;

/// The blocks of a piece of an array that keeps no parity, and the most of one of another, where its stripes aren't longer.
pub(crate) const MOST_BLOCKS: u64 = 2048;

/// The blocks of the next piece of a range, of which so many come before it and so many are left. Pieces have so many blocks each, but the first is shorter
/// by some.
pub fn piece_of(each: u64, ahead: u64, at: u64, left: u64) -> u64
    requires some { 0 < each }
    requires small { ahead + at < 2 ^ 64 }
    ensures value { result ≡ piece_of each ahead at left }
    ensures few { result ≤ each }
    ensures within { result ≤ left }
    ensures some { 0 < left → 0 < result }
{
    left.min(each - (ahead + at) % each)
}

/// How many blocks are whole stripes of so many and of so many. Where there are no such numbers, those of the first.
fn in_stripes(blocks: u64, unit: u64) -> u64
    requires { 0 < blocks }
    ensures value { result ≡ in_stripes blocks unit }
    ensures some { 0 < result }
{
    if unit == 0 || blocks % unit == 0 {
        return blocks;
    }
    if unit % blocks == 0 {
        return unit;
    }
    match blocks.checked_mul(unit) {
        Some(both) => both,
        None => blocks,
    }
}

/// The same with the stripes of an element, where it keeps parity.
fn in_stripes_of(blocks: u64, part: &Part) -> u64
    requires { 0 < blocks }
    ensures value { result ≡ in_stripes_of blocks part.now }
    ensures some { 0 < result }
{
    if keeps_parity(part.shape.layout()) {
        return in_stripes(blocks, part.shape.unit());
    }
    blocks
}

/// The blocks of a whole stripe of every element that keeps parity.
fn stripe_blocks(view: &View) -> u64
    ensures value { result ≡ stripe_blocks view.now }
    ensures some { 0 < result }
{
    let mut blocks = 1;
    for element in 0..view.parts().len() {
        let part = &view.parts()[element];
        blocks = in_stripes_of(blocks, part);
    }
    blocks
}

/// The blocks of a piece: as many whole stripes as there is room for, and one at least.
pub(crate) fn piece_blocks(view: &View) -> u64
    ensures value { result ≡ piece_blocks view.now }
    ensures some { 0 < result }
{
    let stripe = stripe_blocks(view);
    if stripe <= MOST_BLOCKS {
        return (MOST_BLOCKS / stripe * stripe).max(1);
    }
    stripe
}
