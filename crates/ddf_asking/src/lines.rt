//! The lines of a batch that put an end to something: they are asked about before the first line is done. docs/COMMANDS.md#batch
use ddf_edge::OneLine;
use std::str;

/// What is told of a line in the place of its text, where it has none.
const NO_TEXT: &str = "no text";

/// Names on standard error each line of a batch that takes a disk out of use or an array out of the records, or takes an array to
/// agree. Whether there is any. A byte somewhere that is no text hides no line.
pub fn name_lines<R: Eprint>(rt: &R, lines: &[u8]) -> bool {
    let mut any = false;
    for (place, line) in lines.split(|byte| *byte == b'\n').enumerate() {
        if let Some(what) = end_of(line) {
            any = true;
            let text = OneLine(text_of(line));
            let count = place.saturating_add(1);
            let _ = eprintln!(rt; "ddf: line {count} ({text}) {what}");
        }
    }
    any
}

/// The text of a line.
fn text_of(line: &[u8]) -> &str {
    match str::from_utf8(line) {
        Ok(text) => text,
        Err(_) => NO_TEXT,
    }
}

/// What a line puts an end to.
fn end_of(line: &[u8]) -> Option<&'static str> {
    let word = match line.split(|byte| *byte == b' ').next() {
        Some(word) => word,
        None => return None,
    };
    if word == b"fail".as_slice() {
        Some("takes a disk out of use for good")
    } else if word == b"delete".as_slice() {
        Some("takes an array out of the records")
    } else if word == b"accept".as_slice() {
        Some("takes the mark of an array away, and compares nothing")
    } else {
        None
    }
}
