//! What the arrays of a group keep, whatever happens to its disks and to its records.
#![tactic(auto)]

mod laws;

pub use laws::{
    a_cell_lies_below_a_floor, a_change_keeps_the_data_of_a_group, a_cleared_mark_keeps_the_data,
    a_created_array_is_writable, a_disk_in_the_place_of_another_keeps_the_data,
    a_free_extent_is_no_arrays, a_lessened_array_is_one_with_fewer_places,
    a_loss_of_disks_keeps_the_data, a_low_state_changes_nothing, a_mark_keeps_the_data,
    a_mark_leaves_no_rows, a_position_in_sync_keeps_the_data,
    a_position_on_another_disk_keeps_the_data, a_rebuild_takes_the_first_position,
    a_rebuild_that_begins_has_what_it_asks_for, a_redundant_array_may_be_unmarked,
    a_view_over_all_members_lacks_no_disk, an_array_rests_on_its_own_members,
    an_arrays_cells_are_no_other_arrays, counting_disks_as_lost_keeps_the_data,
    only_an_arrays_cells_change, rebuilt_rows_keep_the_data,
};
