//! Availability: a read of an array that its disks serve isn't refused, and where no disk of it fails it prints its blocks; and where a position of an array goes back from a
//! revertible spare to another disk, arrays stay usable, and the spare is a spare again.
#![tactic(auto)]

mod copyback;
mod laws;

pub use copyback::{
    a_disk_that_gives_its_place_back_is_a_spare_again,
    a_disk_that_stood_in_at_a_deleted_array_is_a_spare_again, a_spare_that_stood_in_is_as_it_was,
    arrays_stay_usable_where_a_position_goes_back,
};
pub use laws::{
    a_read_of_an_array_that_is_served_gives_its_blocks,
    a_read_of_an_array_that_is_served_is_not_refused, a_read_over_disks_in_memory_gives_its_blocks,
    a_read_over_disks_in_memory_is_counted, a_write_over_disks_in_memory_is_counted,
    a_write_without_parity_is_counted,
};
