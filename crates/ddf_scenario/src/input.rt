//! The input of a command, as scenarios write it.
use crate::edit::number_sectors;
use crate::numbers::{count, numbers};
use anyhow::bail;
use ddf_bytes::MemorySource;
use std::alloc::Global;

/// An input without bytes.
pub fn empty(alloc: Global) -> MemorySource {
    MemorySource::new(Vec::new(alloc), Vec::new(alloc))
}

/// An input of these bytes: `COUNTxHEX..`, each so often, or `numbers SECTORS`, each byte of sector N as N modulo 251, or `text WORDS..`, the words with
/// single spaces between. With `failing N..` behind that these reads of it fail, counted from 0.
pub fn input_of(alloc: Global, words: &[&str]) -> anyhow::Result<MemorySource> {
    let place = words.iter().position(|word| *word == "failing");
    let parts = match place {
        Some(place) => words.get(..place).unwrap_or(words),
        None => words,
    };
    let failing = words.get(parts.len() + 1..).unwrap_or(&[]);
    let bytes = match parts {
        ["numbers", sectors] => numbered(alloc, count(sectors)?)?,
        ["text", words @ ..] => spelled(alloc, words)?,
        parts => repeated(alloc, parts)?,
    };
    Ok(MemorySource::new(bytes, numbers(alloc, failing)?))
}

fn numbered(alloc: Global, sectors: usize) -> anyhow::Result<Vec<u8>> {
    let mut bytes = Vec::from_elem(alloc, 0, sectors.saturating_mul(512))?;
    number_sectors(bytes.as_mut_slice());
    Ok(bytes)
}

/// Words with single spaces between: in them `''` is nothing, and `\n` the end of a line.
fn spelled(alloc: Global, words: &[&str]) -> anyhow::Result<Vec<u8>> {
    let mut bytes = Vec::new(alloc);
    for (place, word) in words.iter().enumerate() {
        if place > 0 {
            bytes.push(b' ')?;
        }
        let word = word.replace(alloc, "''", "")?;
        let word = word.replace(alloc, "\\n", "\n")?;
        bytes.extend_from_slice(word.as_bytes())?;
    }
    Ok(bytes)
}

fn repeated(alloc: Global, parts: &[&str]) -> anyhow::Result<Vec<u8>> {
    let mut bytes = Vec::new(alloc);
    for part in parts {
        let Some((times, digits)) = part.split_once('x') else {
            bail!("`{part}` is no part of an input");
        };
        let digits = hex::decode(alloc, digits)?;
        bytes.extend_from_slice(digits.repeat(alloc, count(times)?)?.as_slice())?;
    }
    Ok(bytes)
}
