//! A set of positions as bits: position p is bit p mod 8, counted from the lowest, of byte p div 8.
ghost use Rattle.std.specs.Prelude.{◌≡◌, ◌*◌, ◌≤◌, ◌<◌, length, slice_index, EachIndex, IfOk};
ghost use Rattle.ddf_config_records.specs.Bits.{bits_of, is_set, positions};

use ddf_bytes::NoMemory;
use std::alloc::Global;

/// The positions below `most` whose bits are set, in rising order.
#[tactic(auto, unfolding(crate::specs::Bits::positions))]
pub(crate) fn positions(alloc: Global, bits: &[u8], most: u16) -> Result<Vec<u16>, NoMemory>
    requires { most ≤ 8 * length bits.now }
    ensures { IfOk result (λ out. out.items ≡ positions most bits.now) }
{
    let out = (0..most)
        .filter(|position| is_set(bits, *position))
        .collect(alloc)?;
    Ok(out)
}

fn is_set(bits: &[u8], position: u16) -> bool
    requires { position < 8 * length bits.now }
    ensures { result ≡ is_set bits.now position }
{
    let byte = bits[usize::from(position / 8)];
    (byte >> (position % 8)) % 2 == 1
}

/// Writes the bits of these positions.
pub(crate) fn put_bits(bits: &mut [u8], out: &[u16])
    requires { EachIndex out.now (λ i. slice_index out.now i < 8 * length bits.old) }
    ensures { bits.new ≡ bits_of (length bits.old) out.now }
{
    bits.fill(0);
    for position in out {
        let byte = usize::from(*position / 8);
        bits[byte] |= 1 << (*position % 8);
    }
}
