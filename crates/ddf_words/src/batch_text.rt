//! Bytes of a batch as text: what is no UTF-8 becomes a byte that no word has, so that its line is refused, and not guessed at.
//! docs/FAULTS.md#bytes-of-a-batch-that-are-no-text
ghost use Rattle.std.specs.Prelude.{◌≡◌, ◌-◌, length, map, slice_index, true, false};
ghost use Rattle.std.specs.Str.{IsUtf8};
ghost use Rattle.ddf_words.specs.Lines.{is_end, without_end};
ghost use Rattle.ddf_words.specs.Text.{IsReadAs, ascii_of};

use std::str;

/// The byte that stands for others than text: it is in no command's words.
const NO_TEXT: u8 = 0x00;

/// Takes the end of the last line away, and makes text of the bytes before: where they aren't UTF-8, each from 80 on becomes 00, which stands in no
/// command's words.
pub fn make_text(bytes: &mut Vec<u8>)
    ensures { IsReadAs (without_end bytes.old.items) bytes.new.items }
{
    strip_end(bytes);
    make_utf8(bytes);
}

/// Takes the end of the last line away.
fn strip_end(bytes: &mut Vec<u8>)
    ensures { bytes.new.items ≡ without_end bytes.old.items }
{
    if ends_line(bytes) {
        bytes.truncate(bytes.len().saturating_sub(1));
    }
}

fn make_utf8(bytes: &mut [u8])
    ensures { IsReadAs bytes.old bytes.new }
{
    if !is_text(bytes) {
        make_ascii(bytes);
    }
}

fn is_text(bytes: &[u8]) -> bool
    ensures yes { result ≡ true → IsUtf8 bytes.now }
    ensures no { result ≡ false → IsUtf8 bytes.now → ⊥ }
{
    match str::from_utf8(bytes) {
        Ok(_) => true,
        Err(_) => false,
    }
}

/// Bytes that are text, as text.
pub fn as_text(bytes: &[u8]) -> &str
    requires { IsUtf8 bytes.now }
    ensures { result.now ≡ bytes.now }
{
    match str::from_utf8(bytes) {
        Ok(text) => text,
        Err(_) => unreachable!(),
    }
}

/// Whether the last byte is the end of a line.
fn ends_line(bytes: &[u8]) -> bool
    ensures { result ≡ is_end (slice_index bytes.now (length bytes.now - 1)) }
{
    matches!(bytes, [.., b'\n'])
}

fn make_ascii_byte(byte: &mut u8)
    ensures { byte.new ≡ ascii_of byte.old }
{
    if *byte >= 0x80 {
        *byte = NO_TEXT;
    }
}

fn make_ascii(bytes: &mut [u8])
    ensures { bytes.new ≡ map ascii_of bytes.old }
{
    for byte in bytes.iter_mut() {
        make_ascii_byte(byte);
    }
}
