//! What groups on disks carry of their arrays' data: the laws that join histories of data with what calls promise of disks.
#![tactic(auto)]

mod laws;

pub use laws::{
    a_call_on_blocks_writes_its_array_alone, a_copy_is_written_at_or_past_its_floor,
    a_resynced_array_counts, a_settled_group_keeps_what_its_history_does,
    a_settled_group_stays_where_blocks_are_written, a_settled_groups_seats_are_members,
    alike_seats_give_one_view, setting_cells_keeps_the_data,
    the_seats_of_a_settled_group_are_those_of_its_history,
    what_is_done_to_blocks_keeps_the_history, writing_blocks_keeps_the_data,
    writing_records_keeps_the_data,
};
