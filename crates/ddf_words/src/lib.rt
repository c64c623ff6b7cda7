//! The words of `ddf`: the images, and the command that is asked for, with the group that it is done to, or the batch or exercise; and the lines of a batch.
#![tactic(auto)]

mod array_words;
mod asking;
mod batch_input;
mod batch_line;
mod batch_order;
mod batch_parts;
mod batch_text;
mod block_words;
mod command;
mod disk_words;
mod element_words;
mod ends;
mod exercise_number;
mod import_words;
mod label_words;
mod level_words;
mod name_words;
mod number_words;
mod request;
mod slot_words;
mod traits;
mod words;

pub use asking::{Asking, asking_of};
pub use batch_input::{BatchFault, read_batch};
pub use batch_line::line_command;
pub use batch_order::{Order, order_of};
pub use batch_parts::line_words;
pub use batch_text::{as_text, make_text};
pub use command::{Asked, Command, CreateElement, Creation, DiskStyle, SpareWord, Wish};
pub use number_words::number_of;
pub use traits::Traits;
pub use words::{MOST_IMAGES, WordFault, asked, image_paths, slot_paths};
