//! What the data of a group keep with what stands behind open gates laid over them, whatever happens to the group.
#![tactic(auto)]

mod laws;

pub use laws::{
    a_failed_disk_is_one_counted_as_lost, a_gate_names_all_cells_of_its_block,
    a_group_keeps_its_data_with_what_is_staged_at_every_moment, a_join_keeps_what_is_staged,
    a_loss_keeps_what_is_staged, a_read_over_what_is_staged_returns_what_was_acknowledged,
    a_staged_write_keeps_the_data_of_the_group, a_stop_behind_a_staged_write_leaves_no_gate_open,
    a_stop_in_a_staged_write_keeps_the_data, a_stop_while_gates_are_closed_keeps_the_data,
    an_array_set_back_keeps_its_data, closed_gates_leave_none_open,
    closing_gates_keeps_what_is_staged, closing_gates_without_cells_keeps_what_is_staged,
    counting_disks_as_lost_keeps_what_is_staged, deleting_an_array_keeps_what_is_staged,
    gates_that_dont_count_may_be_written, no_gate_opens_by_other_calls,
    records_aside_of_desks_keep_what_is_staged, what_desks_show_is_all_that_counts,
    what_joins_is_laid_over_as_it_was, where_no_gate_stands_open_the_data_are_plain,
};
