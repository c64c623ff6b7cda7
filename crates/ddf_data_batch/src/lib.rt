//! The lines of a batch in histories of a group and of its data: laws from what a batch promises of them.
#![tactic(auto)]

mod laws;

pub use laws::{
    a_line_is_an_event_of_its_history_of_data, the_lines_of_a_batch_go_on_in_their_history_of_data,
};
