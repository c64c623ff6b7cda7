//! What the program does with its words: the call that it makes, and the laws of histories of such calls.
#![tactic(auto)]

mod dispatch;
mod laws;
mod refusing;

pub use ddf_config::{FullTable, Refusal};
pub use ddf_words::{
    Asked, Command, Creation, DiskStyle, MOST_IMAGES, Traits, Wish, WordFault, asked, image_paths,
    slot_paths,
};
pub use dispatch::{obey, run};
pub use laws::{
    a_call_behind_an_import_is_admitted, a_call_is_an_event_of_its_history,
    a_call_that_was_done_leaves_current_members, a_call_without_a_write_leaves_all_as_it_was,
    a_calls_changes_keep_members, a_calls_disks_are_current_members,
    a_change_of_another_group_is_aside, a_founded_slot_is_a_current_member,
    a_group_is_assembled_at_every_moment_of_its_history, a_label_begins_a_history,
    a_label_cut_short_begins_a_history, a_label_is_aside_of_other_histories,
    a_member_that_was_left_out_is_missing, a_steps_copies_name_their_group_and_disks,
    an_import_is_an_event_of_its_history, an_import_that_was_cut_is_before_or_behind_a_change,
    an_import_that_was_done_leaves_current_members,
};
pub use refusing::refuse_words;
