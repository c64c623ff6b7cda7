//! Where each block of one element lies: the primary RAID levels.
#![tactic(auto)]

mod cell;
mod fault;
mod laws;
mod layout;
mod need;
mod parity;
mod shape;
mod strip;

pub use cell::{Cell, Twins};
pub use ddf_mirror1e::Spread;
pub use fault::ShapeFault;
pub use laws::{
    a_member_has_the_blocks_that_lie_on_it, a_served_layout_needs_what_its_level_says,
    each_cell_holds_a_block_or_parity, enough_members_hold_every_block,
    every_block_lies_within_the_members, no_block_lies_in_a_parity_cell, twins_lie_on_neighbours,
    two_blocks_never_share_a_cell,
};
pub use layout::Layout;
pub use need::{Need, begins_pairs, keeps_more_of};
pub use parity::ParityLayout;
pub use shape::Shape;
