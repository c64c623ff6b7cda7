//! The words of a call, as scenarios write them.
use std::alloc::{AllocError, Global};

/// The words of a command over so many disks, behind their paths.
pub fn words_over(alloc: Global, slots: usize, command: &str) -> Result<Vec<String>, AllocError> {
    let mut words = Vec::new(alloc);
    for slot in 0..slots {
        words.push(format!(in alloc; "d{slot}")?)?;
    }
    words.push(String::from_str(alloc, "--")?)?;
    push_words(alloc, &mut words, command)?;
    Ok(words)
}

/// Adds the words of a text: `''` is an empty one, and `\x7f` the byte of this number.
pub fn push_words(alloc: Global, words: &mut Vec<String>, text: &str) -> Result<(), AllocError> {
    for word in text.split_whitespace() {
        let word = word.replace(alloc, "''", "")?;
        words.push(word.replace(alloc, "\\x7f", "\u{7f}")?)?;
    }
    Ok(())
}
