//! Where the newest write of each sector stands.
ghost use Rattle.std.specs.Prelude.{◌<◌, ◌≤◌, ◌+◌, Some};
ghost use Rattle.std.specs.HashMap.{hash_map_len, spare, Updates};

use std::collections::HashMap;

/// A sector of a slot.
#[derive(Clone, Copy, PartialEq, Eq, Hash)]
pub(crate) struct Place {
    pub slot: usize,
    pub lba: u64,
}

/// For each sector that was written, where its newest write stands.
pub(crate) type Index = HashMap<Place, usize>;

/// Notes where the newest write of a sector stands. It takes no memory while there is room.
pub(crate) fn note(index: &mut Index, place: Place, at: usize)
    requires { 0 < spare index.old }
    ensures updates { Updates ⟦<Place as PartialEq>⟧.eq index.old index.new place (Some at) }
    ensures len { hash_map_len index.new ≤ hash_map_len index.old + 1 }
    ensures room { hash_map_len index.old + spare index.old ≤ hash_map_len index.new + spare index.new }
{
    if let Some(noted) = index.get_mut(&place) {
        *noted = at;
        return;
    }
    match index.insert(place, at) {
        Ok(_) => (),
        Err(_) => unreachable!(),
    }
}
