//! What arrays keep of the bytes that were given to them, whatever happens to their disks.
#![tactic(auto)]

mod laws;

pub use laws::{
    a_consistent_array_counts, a_consistent_array_needs_no_mark,
    a_place_that_moves_changes_nothing, a_plain_array_is_consistent,
    a_read_gives_what_a_block_may_have, a_rebuild_keeps_what_the_array_keeps,
    a_rebuilt_position_may_be_in_sync, a_resync_keeps_what_the_array_keeps,
    a_whole_array_is_consistent_once_redundant, a_write_keeps_what_the_array_keeps,
    an_array_keeps_its_data_at_every_moment, an_array_without_rows_keeps_them,
    an_available_position_holds_what_it_should, fewer_places_change_nothing,
    other_sectors_change_nothing, rows_behind_others_are_set, rows_that_are_set_may_count,
    whatever_a_new_array_holds_is_any_bytes,
};
