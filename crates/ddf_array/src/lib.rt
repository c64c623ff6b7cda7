//! What an array is over the disks of its group: where each of its blocks can be read, and which disks it can do
//! without.
#![tactic(auto)]

mod copy;
mod laws;
mod level;
mod part;
mod place;
mod site;
mod view;
mod view_fault;
mod viewing;

pub use laws::{
    a_cell_is_the_sum_of_the_others, a_loss_changes_no_value, a_place_is_on_a_seat,
    a_source_gives_the_value, a_view_fits, a_view_is_apart, a_view_tells_of_its_array,
    an_array_within_its_level_has_values, consistent_is_redundant, fewer_seats_are_a_loss,
    parity_is_the_sum_of_its_row,
};
pub use part::Part;
pub use place::Place;
pub use site::Site;
pub use view::View;
pub use view_fault::ViewFault;
pub use viewing::use_refusal;
