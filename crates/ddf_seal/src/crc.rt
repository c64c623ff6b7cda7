//! The CRC-32 of the format, sixteen bytes at a time: each byte goes through a table of its own, and the sum of what the tables give
//! is the register.
ghost use Rattle.std.specs.Prelude.{◌≡◌, ◌+◌, ◌*◌, ◌<◌, ◌≤◌, ℕ, IsTrue, bit_xor, fold};
ghost use Rattle.ddf_seal.specs.Crc.{are_entries, bit_steps, byte_step, crc_of};

use crate::crc_tables::{TABLES, Tables};

/// The CRC-32 of the bytes.
pub fn crc32(bytes: &[u8]) -> u32
    // promise:sums
    ensures { result ≡ crc_of bytes.now }
{
    after_bytes(u32::MAX, bytes) ^ u32::MAX
}

/// The register after more bytes.
pub(crate) fn after_bytes(register: u32, bytes: &[u8]) -> u32
    ensures { result ≡ fold byte_step register bytes.now }
{
    after_bytes_by(&TABLES, register, bytes)
}

fn after_bytes_by(tables: &Tables, register: u32, bytes: &[u8]) -> u32
    requires { IsTrue (are_entries 0 tables.now) }
    ensures { result ≡ fold byte_step register bytes.now }
{
    let (words, tail) = bytes.as_chunks::<4>();
    let (blocks, rest) = words.as_chunks::<4>();
    let after = after_blocks(tables, register, blocks);
    after_tail(tables, after_words(tables, after, rest), tail)
}

fn after_blocks(tables: &Tables, register: u32, blocks: &[[[u8; 4]; 4]]) -> u32
    requires { IsTrue (are_entries 0 tables.now) }
    ensures { result ≡ fold (fold (fold byte_step)) register blocks.now }
{
    let mut register = register;
    for block in blocks {
        register = after_block(tables, register, block);
    }
    register
}

/// The register after the sixteen bytes of four words: the register goes into the first word, and each word is taken with the
/// zeros that the words after it stand for.
fn after_block(tables: &Tables, register: u32, block: &[[u8; 4]; 4]) -> u32
    requires { IsTrue (are_entries 0 tables.now) }
    ensures { result ≡ fold (fold byte_step) register block.now }
{
    let [first, second, third, fourth] = block;
    // The register comes last, so that the next block waits for few steps.
    after_zeros(tables, number(fourth), 0)
        ^ after_zeros(tables, number(third), 4)
        ^ after_zeros(tables, number(second), 8)
        ^ after_zeros(tables, register ^ number(first), 12)
}

fn after_words(tables: &Tables, register: u32, words: &[[u8; 4]]) -> u32
    requires { IsTrue (are_entries 0 tables.now) }
    ensures { result ≡ fold (fold byte_step) register words.now }
{
    let mut register = register;
    for word in words {
        register = after_zeros(tables, register ^ number(word), 0);
    }
    register
}

fn after_tail(tables: &Tables, register: u32, bytes: &[u8]) -> u32
    requires { IsTrue (are_entries 0 tables.now) }
    ensures { result ≡ fold byte_step register bytes.now }
{
    let mut register = register;
    for byte in bytes {
        register = after_byte(tables, register, *byte);
    }
    register
}

fn after_byte(tables: &Tables, register: u32, byte: u8) -> u32
    requires { IsTrue (are_entries 0 tables.now) }
    ensures { result ≡ byte_step register byte }
{
    let [low, _, _, _] = register.to_le_bytes();
    entry(tables, low ^ byte, 0) ^ register / 256
}

/// The bytes of a word as a number, which goes into the register whole: its first byte is the lowest.
fn number(word: &[u8; 4]) -> u32
    ensures { (register : ℕ) → fold byte_step register word.now ≡ bit_steps 32 (bit_xor register result) }
{
    u32::from_le_bytes(*word)
}

/// The register after four zero bytes and some more.
fn after_zeros(tables: &Tables, register: u32, more: usize) -> u32
    requires tables { IsTrue (are_entries 0 tables.now) }
    requires few { more ≤ 12 }
    ensures { result ≡ bit_steps (8 * (more + 4)) register }
{
    let [first, second, third, fourth] = register.to_le_bytes();
    entry(tables, first, more + 3)
        ^ entry(tables, second, more + 2)
        ^ entry(tables, third, more + 1)
        ^ entry(tables, fourth, more)
}

/// The register after a zero byte and some more, where it begins as one byte.
fn entry(tables: &Tables, byte: u8, more: usize) -> u32
    requires tables { IsTrue (are_entries 0 tables.now) }
    requires few { more < 16 }
    ensures { result ≡ bit_steps (8 * (more + 1)) byte }
{
    tables[256 * more + usize::from(byte)]
}
