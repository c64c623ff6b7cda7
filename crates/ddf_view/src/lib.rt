//! What one copy says of its disk and of its group, the configuration that copies give together, and which differences two
//! copies have.
#![tactic(auto)]

mod alike;
mod arrays;
mod difference;
mod differing;
mod disks;
mod element_reading;
mod flags;
mod held;
mod laws;
mod reading;
mod same;
mod showing;
mod slots;
mod spare_reading;
mod together;
mod view;

pub use alike::are_alike;
pub use arrays::array_of;
pub use difference::Difference;
pub use differing::first_difference;
pub use disks::find_disk;
pub use flags::{is_global, is_rebuilding};
pub use held::{HeldRecord, element_of};
pub use laws::{
    a_disk_that_is_being_filled_is_no_spare, alike_copies_agree, level_copies_have_one_view,
    names_differ, views_give_what_they_show,
};
pub use reading::read;
pub use same::same_record;
pub use showing::shows;
pub use slots::{first_spare, spare_of};
pub use together::{disk_rows, find_held};
pub use view::View;
