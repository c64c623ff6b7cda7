//! Input that a command didn't take.
use crate::device::if_told;
use std::rt::Files;
use std::{fs, io};

/// Standard input as a path, and what the system tells of its descriptor.
const INPUT: &str = "/proc/self/fd/0";

const INPUT_INFO: &str = "/proc/self/fdinfo/0";

/// Says on standard error how many bytes of standard input are left, where it is a file.
pub fn name_rest<R: Files + Eprint + AllocGlobal>(rt: &R) {
    if let Ok(Some(rest)) = rest_of_input(rt) {
        if rest > 0 {
            let _ = eprintln!(rt;
                "ddf: {rest} bytes of standard input lie beyond these blocks, and weren't written"
            );
        }
    }
}

/// How many bytes a file has left that standard input is.
fn rest_of_input<R: Files + AllocGlobal>(rt: &R) -> io::Result<Option<u64>> {
    let Some(metadata) = if_told(fs::metadata(rt, INPUT))? else {
        return Ok(None);
    };
    if !metadata.is_file() {
        return Ok(None);
    }
    let Some(text) = if_told(fs::read_to_string(rt, INPUT_INFO))? else {
        return Ok(None);
    };
    match position_in(text.as_str()) {
        Some(position) => Ok(Some(metadata.len().saturating_sub(position))),
        None => Ok(None),
    }
}

/// The position that the system tells of a descriptor.
fn position_in(text: &str) -> Option<u64> {
    for line in text.lines() {
        if let Some(rest) = line.strip_prefix("pos:") {
            return rest.trim().parse::<u64>().ok();
        }
    }
    None
}
