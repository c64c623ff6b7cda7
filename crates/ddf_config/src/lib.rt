//! The configuration of a group of disks: its members, its arrays, and what they amount to.
#![tactic(auto)]

mod array;
mod by_disk;
mod config;
mod element;
mod extent;
mod level;
mod lookup;
mod member;
mod refusal;
mod room;
mod seat;
mod served;
mod shape;
mod state;
mod table;
mod usable;
mod within;

pub use array::Array;
pub use by_disk::ExtentsByDisk;
pub use config::Config;
pub use element::{ElementPlan, Position};
pub use extent::{Extent, array_extents, extents, ranges_on};
pub use level::{is_disputed, is_level, unserved_level};
pub use lookup::is_current;
pub use member::{Member, SpareUse};
pub use refusal::{FullTable, Refusal, first_refusal, refuse_if};
pub use room::{least_start, start_on};
pub use seat::{Seat, floor_of, slot_of};
pub use served::is_served;
pub use shape::{
    array_capacity, array_tiers, element_shape, has_shapes, has_tiers, shape_size, strip_sectors,
};
pub use state::{low_state, with_low_states};
pub use table::{put_last, put_some};
pub use usable::{passes_floor, unusable};
pub use within::{has_part_within, is_part_within, is_within};
