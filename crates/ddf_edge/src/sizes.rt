//! Sizes with units where a command takes blocks or strips, as `1G` and `64K`, and sizes as people read them. docs/COMMANDS.md#arguments
use crate::slot_images::{name_place, put_word};
use ddf_words::number_of;
use std::alloc::AllocError;
use std::fmt;

/// The letters of units, and how many blocks each stands for: 2^10, 2^20, 2^30 and 2^40 bytes.
const UNITS: [(char, u64); 4] = [
    ('K', 1 << 1),
    ('M', 1 << 11),
    ('G', 1 << 21),
    ('T', 1 << 31),
];

/// What a command takes in one of its words.
enum Takes {
    /// A number of blocks.
    Blocks,
    /// The code of a strip's size.
    Code,
    /// Slots, `@` and a number of blocks.
    Element,
    /// No size.
    Another,
}

/// Puts the number that a command takes for each size with a unit, and says on standard error what that is.
// argued: that a size with a unit becomes the number of blocks, or the code, that it stands for, for it is digits times one of four powers of two, and
// what is promised of a call speaks of its arguments after that.
pub fn number_sizes<R: Eprint + AllocGlobal>(
    rt: &R,
    words: &mut Vec<String>,
) -> Result<(), AllocError> {
    let name = name_place(words);
    for place in name..words.len() {
        let number = match (words.get(name), words.get(place)) {
            (Some(command), Some(word)) => {
                numbered(rt, taken_at(command, place.saturating_sub(name)), word)?
            }
            _ => None,
        };
        if let Some(number) = number {
            put_word(words, place, number);
        }
    }
    Ok(())
}

/// What a command takes so many words behind its name.
fn taken_at(command: &str, offset: usize) -> Takes {
    match command {
        "read" | "write" if offset == 2 || offset == 3 => Takes::Blocks,
        "create" if offset == 3 => Takes::Code,
        "create" if offset > 4 => Takes::Element,
        _ => Takes::Another,
    }
}

/// The word with a number in the place of its size, where it has a unit.
fn numbered<R: Eprint + AllocGlobal>(
    rt: &R,
    takes: Takes,
    word: &str,
) -> Result<Option<String>, AllocError> {
    match takes {
        Takes::Blocks => match blocks_of(word) {
            Some(blocks) => {
                tell_blocks(rt, word, blocks);
                Ok(Some(format!(in rt.alloc(); "{blocks}")?))
            }
            None => Ok(None),
        },
        Takes::Code => match code_of(word) {
            Some(code) => {
                let _ = eprintln!(rt; "ddf: {word} is CODE {code}: strips of 2^{code} blocks");
                Ok(Some(format!(in rt.alloc(); "{code}")?))
            }
            None => Ok(None),
        },
        Takes::Element => numbered_blocks(rt, word),
        Takes::Another => Ok(None),
    }
}

/// An element with the number of its blocks.
fn numbered_blocks<R: Eprint + AllocGlobal>(
    rt: &R,
    word: &str,
) -> Result<Option<String>, AllocError> {
    let Some((slots, size)) = word.rsplit_once('@') else {
        return Ok(None);
    };
    match blocks_of(size) {
        Some(blocks) => {
            tell_blocks(rt, size, blocks);
            Ok(Some(format!(in rt.alloc(); "{slots}@{blocks}")?))
        }
        None => Ok(None),
    }
}

fn tell_blocks<R: Eprint>(rt: &R, size: &str, blocks: u64) {
    let _ = eprintln!(rt; "ddf: {size} is {blocks} blocks");
}

/// The blocks of a size with a unit.
fn blocks_of(size: &str) -> Option<u64> {
    for (letter, blocks) in UNITS {
        if let Some(digits) = size.strip_suffix(letter) {
            return number_of(digits, u64::MAX)?.checked_mul(blocks);
        }
    }
    None
}

/// The code n of strips of 2^n blocks, where a size is that of such ones.
fn code_of(size: &str) -> Option<u32> {
    let blocks = blocks_of(size)?;
    if blocks.is_power_of_two() {
        Some(blocks.trailing_zeros())
    } else {
        None
    }
}

/// A number of blocks as people read it: in the greatest unit of which it has one, with a tenth.
#[derive(Clone, Copy)]
pub struct Size(pub u64);

impl fmt::Display for Size {
    fn fmt<W: fmt::Write>(&self, f: &mut fmt::Formatter<W>) -> fmt::Result {
        for (letter, blocks) in UNITS.iter().rev() {
            if self.0 >= *blocks && *blocks > 0 {
                let whole = self.0 / blocks;
                let tenth = (self.0 % blocks).saturating_mul(10) / blocks;
                return match tenth {
                    0 => write!(f, "{whole} {letter}iB"),
                    _ => write!(f, "{whole}.{tenth} {letter}iB"),
                };
            }
        }
        write!(f, "{} bytes", self.0.saturating_mul(512))
    }
}
