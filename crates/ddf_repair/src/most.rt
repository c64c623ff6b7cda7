//! The most blocks for which there is room on a disk.
ghost use Rattle.std.specs.Prelude.{◌≡◌, ◌≤◌};
ghost use Rattle.ddf_repair.specs.Spares.{has_room, most_within};

use ddf_config::least_start;

/// Whether there is room for so many blocks.
fn has_room(taken: &[(u64, u64)], limit: u64, strip: u64, blocks: u64) -> bool
    requires { 1 ≤ strip }
    ensures { result ≡ has_room taken.now limit strip blocks }
{
    least_start(taken, limit, strip, blocks).is_some()
}

/// The greatest number of blocks for which there is room below a limit, 0 where there is none.
pub(crate) fn most_within(taken: &[(u64, u64)], limit: u64, strip: u64) -> u64
    requires { 1 ≤ strip }
    ensures { result ≡ most_within taken.now limit strip }
{
    let mut low = 0;
    let mut high = limit;
    while low < high {
        let middle = high - (high - low) / 2;
        if has_room(taken, limit, strip, middle) {
            low = middle;
        } else {
            high = middle - 1;
        }
    }
    low
}
