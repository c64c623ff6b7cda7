//! Words that aren't text.
use crate::one_line::OneLine;
use std::env::FillError;
use std::rt::Env;
use std::str;

/// The most bytes of a word that are looked at.
const WORD_BYTES: usize = 4096;

/// Names on standard error each word that isn't UTF-8, but those that are very long.
pub fn name_no_texts<R: Env + Eprint + AllocGlobal>(rt: &R) {
    let mut bytes = [0; WORD_BYTES];
    for place in 1..u16::MAX {
        let count = match rt.arg(usize::from(place), &mut bytes) {
            Ok(count) => count,
            Err(FillError::NotPresent) => return,
            Err(FillError::TooLong) => continue,
        };
        if let Some(word) = bytes.get(..count) {
            name_no_text(rt, word);
        }
    }
}

/// Names a word that isn't UTF-8.
fn name_no_text<R: Eprint + AllocGlobal>(rt: &R, word: &[u8]) {
    if str::from_utf8(word).is_ok() {
        return;
    }
    if let Ok(text) = String::from_utf8_lossy(rt.alloc(), word) {
        let text = OneLine(&text);
        let _ = eprintln!(rt; "ddf: the argument {text} isn't UTF-8 text");
    }
}
