//! What is wrong with words that are no command's, and what was meant, perhaps. docs/REFUSALS.md#10-word-p
use crate::command_help::synopsis_of;
use crate::one_line::OneLine;
use ddf_words::{MOST_IMAGES, image_paths};
use std::fmt;

/// Why words are no command's.
#[derive(Clone, Copy, Drop)]
pub enum Wrong<'a> {
    /// They end before the two dashes.
    NoDashes,
    /// They end before the command.
    NoCommand,
    /// An image has no name.
    Unnamed,
    /// There are too many images.
    Crowd,
    /// An image is named twice.
    Twice(&'a str),
    /// There is no such command.
    Unknown(&'a str),
    /// A word is no group's name.
    NoGroup(&'a str),
    /// A command takes no group.
    Groupless(&'a str),
    /// They end before the command has all its words: what it wants there.
    Short(&'a str, &'static str),
    /// A word is none that the command can take there: what it wants there.
    Misplaced(&'a str, &'a str, &'static str),
    /// A slot is named twice.
    SlotTwice(&'a str),
    /// A word is no slot's number.
    NoSlot(&'a str),
}

/// What is wrong with words that go wrong at a place.
pub fn explain(words: &[String], place: usize) -> Wrong<'_> {
    let images = image_paths(words).len();
    let behind = images.saturating_add(1);
    match words.get(images) {
        Some(dashes) if dashes.as_str() == "--" && images < place => {
            explain_request(words, behind, place)
        }
        _ => explain_image(words, place),
    }
}

/// What is wrong with an image, or with the lack of dashes.
fn explain_image(words: &[String], place: usize) -> Wrong<'_> {
    match words.get(place) {
        None => Wrong::NoDashes,
        Some(word) if word.is_empty() => Wrong::Unnamed,
        Some(_) if place >= MOST_IMAGES => Wrong::Crowd,
        Some(word) => Wrong::Twice(word),
    }
}

/// What is wrong behind the dashes, where a group may be named before the command.
fn explain_request(words: &[String], first: usize, place: usize) -> Wrong<'_> {
    match words.get(first) {
        Some(group) if group.starts_with('@') && place <= first => Wrong::NoGroup(group),
        Some(group) if group.starts_with('@') => explain_over_group(words, first, place),
        _ => explain_command(words, first, place),
    }
}

/// What is wrong with a command behind the name of a group.
fn explain_over_group(words: &[String], first: usize, place: usize) -> Wrong<'_> {
    let name = first.saturating_add(1);
    match words.get(name) {
        Some(command) if matches!(command.as_str(), "examine" | "label" | "exercise") => {
            Wrong::Groupless(command)
        }
        _ => explain_command(words, name, place),
    }
}

/// What is wrong with a command whose name stands at this place.
fn explain_command(words: &[String], name: usize, place: usize) -> Wrong<'_> {
    let offset = place.saturating_sub(name);
    match (words.get(name), words.get(place)) {
        (None, _) => Wrong::NoCommand,
        (Some(command), None) => Wrong::Short(command, wanted(command, offset)),
        (Some(command), Some(_)) if place <= name => Wrong::Unknown(command),
        (Some(command), Some(word)) if command.as_str() == "label" => {
            explain_slot(words, name, word)
        }
        (Some(command), Some(word)) => Wrong::Misplaced(command, word, wanted(command, offset)),
    }
}

/// What a command wants so many words behind its name.
fn wanted(command: &str, offset: usize) -> &'static str {
    match command {
        "create" => wanted_of_array(offset),
        "read" | "write" => wanted_of_blocks(offset),
        "delete" | "accept" | "resync" | "rebuild" | "copyback" | "scrub" if offset == 1 =>
            "the name of an array",
        "import" if offset == 1 => "the 48 hexadecimal digits of the GUID of the group that joins",
        "exercise" if offset == 1 => "a seed below 2^64",
        "exercise" if offset == 2 => "a number of rounds from 0 to 256",
        "spare" | "fail" if offset == 1 => "a slot's number from 0 to 63, or its image",
        "copyback" if offset == 2 => "a slot's number from 0 to 63, or its image",
        "spare" if offset == 2 => "global, revertible, for or off",
        "spare" => "the name of an array after for, and nothing after the others",
        _ => "nothing more",
    }
}

/// What `create` wants so many words behind its name.
fn wanted_of_array(offset: usize) -> &'static str {
    match offset {
        1 => "a name of 1 to 16 printable ASCII characters without space",
        2 => {
            "a level: raid0, raid1, raid1e.adjacent, raid1e.offset, raid4.first, raid4.last, raid5.r0, raid5.rn, raid5.rnc, jbod or concat"
        }
        3 => "a number n from 0 to 15, for strips of 2^n sectors, or their size as 64K",
        4 => "single, striped, mirrored, concat or spanned",
        _ =>
            "slots or images with commas between, @, and the blocks of each: a number from 1, a size as 4G, or 100%",
    }
}

/// What `read` and `write` want so many words behind their name.
fn wanted_of_blocks(offset: usize) -> &'static str {
    match offset {
        1 => "the name of an array",
        2 => "the first block, or a size before it as 4G",
        3 => "a count of blocks, or a size as 4G",
        _ => "nothing more",
    }
}

/// What is wrong with a slot behind `label`.
fn explain_slot<'a>(words: &'a [String], name: usize, word: &'a str) -> Wrong<'a> {
    if word == "linux" {
        return Wrong::Misplaced(
            "label",
            word,
            "linux first and once, and a slot's number or image",
        );
    }
    if word == "large" {
        return Wrong::Misplaced(
            "label",
            word,
            "large once, first or directly behind linux, and a slot's number or image",
        );
    }
    let count = words
        .iter()
        .skip(name)
        .filter(|other| other.as_str() == word)
        .count();
    if count > 1 {
        Wrong::SlotTwice(word)
    } else {
        Wrong::NoSlot(word)
    }
}

impl Wrong<'_> {
    /// The arguments of the command that the words name, where they name one.
    pub fn synopsis(&self) -> Option<&'static str> {
        match *self {
            Wrong::Groupless(command)
            | Wrong::Short(command, _)
            | Wrong::Misplaced(command, _, _) => synopsis_of(command),
            Wrong::SlotTwice(_) | Wrong::NoSlot(_) => synopsis_of("label"),
            Wrong::NoDashes
            | Wrong::NoCommand
            | Wrong::Unnamed
            | Wrong::Crowd
            | Wrong::Twice(_)
            | Wrong::Unknown(_)
            | Wrong::NoGroup(_) => None,
        }
    }
}

impl fmt::Display for Wrong<'_> {
    fn fmt<W: fmt::Write>(&self, f: &mut fmt::Formatter<W>) -> fmt::Result {
        match *self {
            Wrong::NoDashes => write!(f, "there is no -- with a command after it"),
            Wrong::NoCommand => write!(f, "there is no command after --"),
            Wrong::Unnamed => write!(f, "an argument for an image is empty"),
            Wrong::Crowd => write!(f, "there are more than {MOST_IMAGES} images"),
            Wrong::Twice(path) => write!(f, "{} is named twice", OneLine(path)),
            Wrong::Unknown(command) => write!(f, "there is no command {}", OneLine(command)),
            Wrong::NoGroup(word) => {
                write!(
                    f,
                    "{} isn't @ and the 48 digits of a group, or the first of them",
                    OneLine(word)
                )
            }
            Wrong::Groupless(command) => write!(f, "{command} takes no group"),
            Wrong::Short(command, wanted) => write!(f, "{command} wants more arguments: {wanted}"),
            Wrong::Misplaced(command, word, wanted) => write!(
                f,
                "{command} doesn't take the argument {}: it wants {wanted} there",
                OneLine(word)
            ),
            Wrong::SlotTwice(word) => write!(f, "slot {} is named twice", OneLine(word)),
            Wrong::NoSlot(word) => write!(
                f,
                "{} is no slot's number from 0 to 63, and no image",
                OneLine(word)
            ),
        }
    }
}
