//! Which changes make an array whole again: the mark that is accepted, and the rebuild of a position.
#![tactic(auto)]

mod accepting;
mod beginning;
mod choosing;
mod first;
mod laws;
mod most;
mod room;
mod spares;

pub use accepting::accept;
pub use beginning::{Begun, RebuildFault, begin, finish};
pub use choosing::choose;
pub use first::Target;
pub use laws::{
    a_mark_is_set_and_cleared, a_rebuild_that_begins_is_not_refused, an_array_stays_usable,
    arrays_stay_usable_where_a_rebuild_begins, the_extent_of_a_rebuild_is_free,
    the_room_of_a_position_is_free,
};
pub use room::{go_back, room_for};
