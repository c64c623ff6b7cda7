//! The exclusive-or of bytes and of sectors.
ghost use Rattle.std.specs.Prelude.{◌≡◌, ◌+◌, ◌≤◌, ◌∷◌, length};
ghost use Rattle.ddf_parity.specs.Xor.{xor, xor_all, zeros, IsOnlySum};
ghost use Rattle.std.specs.Simd.Lanes.{chunk, put_chunk};

use ddf_bytes::Sector;
use std::simd::prelude::*;

/// How many bytes are taken at a time.
const LANES: usize = 32;

/// Makes `into` the exclusive-or of both, byte by byte.
pub fn xor_into(into: &mut [u8], from: &[u8])
    requires { length into.old ≡ length from.now }
    ensures { into.new ≡ xor into.old from.now }
{
    let mut at = 0;
    while LANES <= from.len() - at {
        xor_lanes(into, from, at);
        at += LANES;
    }
    while at < from.len() {
        into[at] ^= from[at];
        at += 1;
    }
}

/// The same of the bytes from `at` on, as many as there are lanes.
fn xor_lanes(into: &mut [u8], from: &[u8], at: usize)
    requires same { length into.old ≡ length from.now }
    requires within { at + 32 ≤ length from.now }
    ensures { into.new ≡ put_chunk at into.old (xor (chunk at 32 into.old) (chunk at 32 from.now)) }
{
    let both = u8x32::from_slice(&into[at..]) ^ u8x32::from_slice(&from[at..]);
    both.copy_to_slice(&mut into[at..]);
}

/// Makes `into` the exclusive-or of the others, whatever it was: the one sector with which the sum of all is zero. So it gives the
/// parity of a row from its data, and what is missing of a row from all else.
pub fn missing_of(others: &[Sector], into: &mut Sector)
    ensures value { into.new ≡ xor_all others.now }
    ensures sum { xor_all (into.new ∷ others.now) ≡ zeros }
    ensures only { IsOnlySum others.now into.new }
{
    *into = [0; 512];
    for other in others {
        xor_into(into, other);
    }
}
