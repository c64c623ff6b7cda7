//! Elements of a new array whose disks are named by their images. docs/COMMANDS.md#arguments
use std::alloc::{AllocError, Global};

/// The element with the number of its slot for each image, where some part of its list isn't a number and each such part is an
/// image: `d1.img,d10.img@8192`.
pub fn numbered_element(
    alloc: Global,
    paths: &[String],
    word: &str,
) -> Result<Option<String>, AllocError> {
    let Some((list, blocks)) = word.rsplit_once('@') else {
        return Ok(None);
    };
    let mut text = String::new(alloc);
    let mut names_image = false;
    for part in list.split(',') {
        if !text.is_empty() {
            text.push(',')?;
        }
        if is_number(part) {
            text.push_str(part)?;
            continue;
        }
        let Some(slot) = slot_named(paths, part) else {
            return Ok(None);
        };
        names_image = true;
        let number = format!(in alloc; "{slot}")?;
        text.push_str(number.as_str())?;
    }
    if !names_image {
        return Ok(None);
    }
    let element = format!(in alloc; "{text}@{blocks}")?;
    Ok(Some(element))
}

/// Whether a word is one of digits alone.
pub fn is_number(word: &str) -> bool {
    word.bytes().all(|byte| byte.is_ascii_digit())
}

/// The slot of the image with this path.
pub fn slot_named(paths: &[String], word: &str) -> Option<usize> {
    paths.iter().position(|path| path.as_str() == word)
}
