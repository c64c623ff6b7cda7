//! What the commands of an exercise make of the configuration of its group.
#![tactic(auto)]

mod laws;

pub use laws::{
    a_creation_makes_the_array, a_label_founds_the_group, a_loss_leaves_the_array_degraded,
    a_rebuild_makes_the_array_whole, a_resync_clears_the_mark, a_scrub_and_a_read_are_not_refused,
    a_whole_array_is_seen, a_write_sets_the_mark_and_clears_it,
    disks_with_seats_are_current_members, each_stage_can_be_written, the_word_names_the_array,
    two_disks_become_spares,
};
