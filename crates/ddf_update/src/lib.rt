//! Updates of a disk's copies: each is written behind its gate, so that a stop at any moment leaves it as it was, with
//! its header open, or whole.
#![tactic(auto)]

mod adopting;
mod both;
mod changes;
mod copy;
mod disk;
mod founding;
mod gate;
mod group;
mod new_copy;
mod new_layout;
mod prepared;
mod runs;
mod stage;

pub use changes::write_disks;
pub use ddf_bay::DiskFault;
pub use disk::write_disk;
pub use gate::Gate;
pub use group::{found, found_disks};
pub use new_copy::new_geometry;
pub use new_layout::NewLayout;
pub use prepared::{Mode, Prepared, prepare};
