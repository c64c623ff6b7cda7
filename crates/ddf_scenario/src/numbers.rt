//! Numbers and lists of them, as scenarios write them.
use anyhow::bail;
use std::alloc::{AllocError, Global};

pub fn number(word: &str) -> anyhow::Result<u64> {
    match word.parse::<u64>() {
        Ok(number) => Ok(number),
        Err(_) => bail!("`{word}` is no number"),
    }
}

pub fn count(word: &str) -> anyhow::Result<usize> {
    Ok(number(word)? as usize)
}

/// The byte of two hexadecimal digits.
pub fn byte(alloc: Global, word: &str) -> anyhow::Result<u8> {
    match hex::decode(alloc, word)?.as_slice() {
        [byte] => Ok(*byte),
        _ => bail!("`{word}` is no byte"),
    }
}

/// The numbers of a list. `N+K` in it stands for N and the K numbers behind it.
pub fn numbers(alloc: Global, words: &[&str]) -> anyhow::Result<Vec<u64>> {
    let mut numbers = Vec::new(alloc);
    for word in words {
        match word.split_once('+') {
            Some((first, more)) => push_row(&mut numbers, number(first)?, number(more)?)?,
            None => numbers.push(number(word)?)?,
        }
    }
    Ok(numbers)
}

fn push_row(numbers: &mut Vec<u64>, first: u64, more: u64) -> Result<(), AllocError> {
    for place in 0..=more {
        numbers.push(first.saturating_add(place))?;
    }
    Ok(())
}
