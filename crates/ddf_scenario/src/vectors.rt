//! What is told of calls that no command shows: checksums, parity and placing.
use crate::numbers::number;
use crate::placing::{draw_element, place_blocks};
use crate::tiers::place_in_elements;
use anyhow::bail;
use ddf_linux::{constant_of, linux_crc32};
use ddf_parity::xor_into;
use ddf_seal::crc32;
use std::alloc::Global;

/// The answer of a verb that no disk is asked for.
pub fn vector(alloc: Global, verb: &str, words: &[&str]) -> anyhow::Result<String> {
    match (verb, words) {
        ("crc", digits) => checksum(alloc, crc32(bytes_of(alloc, digits)?.as_slice())),
        ("linux-crc", digits) => checksum(alloc, linux_crc32(bytes_of(alloc, digits)?.as_slice())),
        ("crc-of-zeros", [count]) => checksum(alloc, constant_of(number(count)?)),
        ("xor", [first, second]) => exclusive_or(alloc, first, second),
        ("draw", element) => draw_element(alloc, element),
        ("place", words) => place_blocks(alloc, words),
        ("tiers", [level, sizes, asked @ ..]) => place_in_elements(alloc, level, sizes, asked),
        _ => bail!("nothing is asked so"),
    }
}

fn checksum(alloc: Global, crc: u32) -> anyhow::Result<String> {
    Ok(format!(in alloc; "{crc:08x}\n")?)
}

/// The bytes of hexadecimal digits, which may stand in several words.
fn bytes_of(alloc: Global, words: &[&str]) -> anyhow::Result<Vec<u8>> {
    let mut bytes = Vec::new(alloc);
    for word in words {
        bytes.extend_from_slice(hex::decode(alloc, *word)?.as_slice())?;
    }
    Ok(bytes)
}

fn exclusive_or(alloc: Global, first: &str, second: &str) -> anyhow::Result<String> {
    let mut sum = hex::decode(alloc, first)?;
    let second = hex::decode(alloc, second)?;
    if sum.len() != second.len() {
        bail!("the bytes aren't as many");
    }
    xor_into(sum.as_mut_slice(), second.as_slice());
    Ok(format!(in alloc; "{}\n", hex::encode(alloc, sum.as_slice())?)?)
}
