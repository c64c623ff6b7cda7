//! The numbers of refusals in what commands print.
use std::str;

/// A contradiction of two records has no number of its own: these stand for it here.
pub const CONFLICT: u16 = 900;

pub const SPLIT: u16 = 901;

/// And these for one of a disk's two copies, and for one of a disk that is there twice.
const COPIES: u16 = 902;

const TWIN: u16 = 903;

/// The most bytes of a line that tells of a refusal. What `read` prints is never so short.
const MOST_BYTES: usize = 256;

/// A refusal, as a line tells it.
#[derive(Clone, Copy)]
pub struct Refused {
    /// Its number.
    pub number: u16,
    /// The last number of the line, of many refusals the slot.
    pub last: Option<u16>,
}

/// The refusal that a piece of output is, where it is one.
pub fn refusal_in(piece: &[u8]) -> Option<Refused> {
    if piece.len() > MOST_BYTES {
        return None;
    }
    let Ok(text) = str::from_utf8(piece) else {
        return None;
    };
    let line = text.trim_end();
    let mut words = line.split(' ');
    let number = match words.next() {
        Some("conflict") => conflict_of(line),
        Some("split") => SPLIT,
        Some("refused") => number_of(words.next())?,
        _ => return None,
    };
    let last = number_of(line.rsplit(' ').next());
    Some(Refused { number, last })
}

/// The slot of the disk that failed, where a piece of output tells of one.
pub fn fault_in(piece: &[u8]) -> Option<u16> {
    if piece.len() > MOST_BYTES {
        return None;
    }
    let Ok(text) = str::from_utf8(piece) else {
        return None;
    };
    match text.trim_end().strip_prefix("disk fault slot ") {
        Some(slot) => slot.parse::<u16>().ok(),
        None => None,
    }
}

/// Which contradiction a line tells: `conflict slots I J sequence Q` and what it is in.
fn conflict_of(line: &str) -> u16 {
    match line.split(' ').nth(6) {
        Some("copies") => COPIES,
        Some("twin") => TWIN,
        _ => CONFLICT,
    }
}

fn number_of(word: Option<&str>) -> Option<u16> {
    match word {
        Some(word) => word.parse::<u16>().ok(),
        None => None,
    }
}
