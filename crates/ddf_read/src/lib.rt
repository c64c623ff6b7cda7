//! The blocks of an array, read from a bay of disks.
#![tactic(auto)]

mod block;
mod by_rows;
mod element;
mod fault;
mod kind;
mod laws;
mod level;
mod missing;
mod parity;
mod read;
mod reading;
mod run;
mod stretch;
mod strip;

pub use ddf_array::{
    Part, Place, Site, View, ViewFault, a_cell_is_the_sum_of_the_others, a_loss_changes_no_value,
    a_place_is_on_a_seat, a_source_gives_the_value, a_view_fits, a_view_is_apart,
    a_view_tells_of_its_array, an_array_within_its_level_has_values, consistent_is_redundant,
    fewer_seats_are_a_loss, parity_is_the_sum_of_its_row, use_refusal,
};
pub use fault::VolumeFault;
pub use laws::{a_good_read_gives_the_first, a_read_gives_a_source};
pub use level::{is_on_every, keeps_parity};
pub use missing::{MissingCell, first_missing};
pub use parity::{add_each, blank, clear, read_row, sum_rows};
pub use read::{read_blocks, read_refusal};
pub use reading::{read_from, try_site};
pub use stretch::lies_behind;
pub use strip::{left_in_strip, strip_of};
