//! The word that a name prints as. Two names that print alike are one name to whoever types it. docs/FAULTS.md#two-arrays-whose-names-print-alike
ghost use Rattle.std.specs.Prelude.{◌≡◌, ◌++◌, codes};
ghost use Rattle.std.specs.List.{list_all};
ghost use Rattle.std.specs.Str.{bytes_eq};
ghost use Rattle.hex.specs.Hex.{encode_lower};
ghost use Rattle.ddf_name.specs.Names.{is_digit, is_place_name, is_place_text, name_text, print_alike};

use crate::plain::{is_plain_name, plain_len};
use ddf_bytes::{ascii_text, put_digits};
use std::fmt;

/// The name of an array as it prints: plain where it is characters and then padding, else `hex:` and the digits of all its bytes.
#[derive(Drop)]
pub struct NameText<'a>(pub &'a [u8; 16]);

impl fmt::Display for NameText<'_> {
    ghost use Rattle.std.specs.Prelude.{Some};
    ghost use Rattle.ddf_name.specs.Names.{name_text};

    ghost output = { λ name. Some (name_text name.0.now) };

    fn fmt<W: fmt::Write>(&self, f: &mut fmt::Formatter<W>) -> fmt::Result {
        let name = self.0;
        if is_plain_name(name) {
            f.write_str(ascii_text(&name[..plain_len(name)]))
        } else {
            let mut digits = [0; 32];
            put_digits(name, &mut digits);
            let digits = ascii_text(&digits);
            write!(f, "hex:{digits}")
        }
    }
}

/// Whether the name of an array prints as this text.
pub fn prints_as(name: &[u8; 16], text: &[u8]) -> bool
    ensures { result ≡ bytes_eq (name_text name.now) text.now }
{
    if is_plain_name(name) {
        return &name[..plain_len(name)] == text;
    }
    is_in_digits(name, text)
}

/// Whether the names of two arrays print as one word.
pub fn print_alike(one: &[u8; 16], other: &[u8; 16]) -> bool
    ensures { result ≡ print_alike one.now other.now }
{
    if is_plain_name(other) {
        return prints_as(one, &other[..plain_len(other)]);
    }
    let mut printed = *b"hex:00000000000000000000000000000000";
    put_digits(other, &mut printed[4..]);
    prints_as(one, &printed)
}

/// Whether the name of an array prints as `#` and digits. So a word names an array by its place, where no name prints so.
pub fn prints_as_place(name: &[u8; 16]) -> bool
    ensures { result ≡ is_place_name name.now }
{
    is_plain_name(name) && is_place_text(&name[..plain_len(name)])
}

/// Whether a text is `#` and digits.
fn is_place_text(text: &[u8]) -> bool
    ensures { result ≡ is_place_text text.now }
{
    let Some((first, digits)) = text.split_first() else {
        return false;
    };
    *first == b'#' && !digits.is_empty() && are_digits(digits)
}

fn are_digits(bytes: &[u8]) -> bool
    ensures { result ≡ list_all is_digit bytes.now }
{
    bytes.iter().all(|byte| matches!(byte, b'0'..=b'9'))
}

/// Whether a text is `hex:` and the digits of a name.
fn is_in_digits(name: &[u8; 16], text: &[u8]) -> bool
    ensures { result ≡ bytes_eq (codes "hex:" ++ encode_lower name.now) text.now }
{
    let mut printed = *b"hex:00000000000000000000000000000000";
    put_digits(name, &mut printed[4..]);
    printed.as_slice() == text
}
