//! Which sector stands where another one is seen.
ghost use Rattle.std.specs.Prelude.{◌≡◌, ◌<◌, ◌≤◌, ◌+◌, ℕ, [], true, slice_index_or};
ghost use Rattle.ddf_badblocks.specs.Ranges.{swap};
ghost use Rattle.ddf_badblocks.specs.Pieces.{begins_at};

use crate::exchange::Exchange;

/// The sector of a slot of so many that stands where another one is seen: a slot past the list exchanges nothing.
pub(crate) fn swap_at(exchanges: &[Exchange], slot: usize, size: u64, lba: u64) -> u64
    ensures exact { result ≡ swap size (slice_index_or exchanges.now slot []) lba }
    ensures small { lba < size → result < size }
{
    match exchanges.get(slot) {
        Some(exchange) => exchange.swap(size, lba),
        None => lba,
    }
}

/// How many of the first sectors of a run on a slot stand one behind another.
pub(crate) fn follow_at(
    exchanges: &[Exchange],
    slot: usize,
    size: u64,
    lba: u64,
    most: usize,
) -> usize
    requires some { 0 < most }
    requires on_slot { lba + most ≤ size }
    ensures some { 0 < result }
    ensures most { result ≤ most }
    ensures follow { (k : ℕ) → k < result → swap size (slice_index_or exchanges.now slot []) (lba + k) ≡ swap size (slice_index_or exchanges.now slot []) lba + k }
    ensures on_slot { swap size (slice_index_or exchanges.now slot []) lba + result ≤ size }
    ensures next { result < most → begins_at size (slice_index_or exchanges.now slot []) lba result ≡ true }
{
    match exchanges.get(slot) {
        Some(exchange) => follow(exchange, size, lba, most),
        None => most,
    }
}

/// How many of the first sectors of a run stand one behind another: the run goes on from one stretch to the next where they do.
fn follow(exchange: &Exchange, size: u64, lba: u64, most: usize) -> usize
    requires some { 0 < most }
    requires on_slot { lba + most ≤ size }
    ensures some { 0 < result }
    ensures most { result ≤ most }
    ensures follow { (k : ℕ) → k < result → swap size exchange.now (lba + k) ≡ swap size exchange.now lba + k }
    ensures on_slot { swap size exchange.now lba + result ≤ size }
    ensures next { result < most → begins_at size exchange.now lba result ≡ true }
{
    let first = exchange.swap(size, lba);
    let mut count = exchange.straight(size, lba, most);
    while count < most {
        let at = lba + count as u64;
        if exchange.swap(size, at) != first + count as u64 {
            return count;
        }
        count += exchange.straight(size, at, most - count);
    }
    count
}
