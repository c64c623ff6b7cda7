//! What the primary levels do with a block.
ghost use Rattle.std.specs.Prelude.{◌≡◌};
ghost use Rattle.ddf_array.specs.Levels.{is_on_every, keeps_parity};

use ddf_primary::Layout;

/// The level that holds each block on every position.
pub fn is_on_every(layout: Layout) -> bool
    ensures { result ≡ is_on_every layout }
{
    layout.is_on_every()
}

/// The levels that keep parity of each row.
pub fn keeps_parity(layout: Layout) -> bool
    ensures { result ≡ keeps_parity layout }
{
    layout.keeps_parity()
}
