//! Where each block of an array lies: the secondary RAID levels over elements.
#![tactic(auto)]

mod concatenated;
mod element;
mod fault;
mod laws;
mod level;
mod sizes;
mod spanned;
mod spot;
mod striped;
mod tiers;

pub use element::ElementSize;
pub use fault::TiersFault;
pub use laws::{
    each_carried_spot_holds_a_block, every_block_lies_within_its_element,
    two_blocks_never_share_a_spot,
};
pub use level::SecondaryLevel;
pub use spot::Spot;
pub use tiers::Tiers;
