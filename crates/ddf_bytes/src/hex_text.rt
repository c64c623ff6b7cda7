//! Numbers as hexadecimal digits, as the program prints signatures, CRCs, references and codes.
ghost use Rattle.std.specs.Prelude.{◌≡◌, ◌*◌, ◌∷◌, [], Some, length};
ghost use Rattle.std.specs.Int.{w16, w32, to_be_bytes};
ghost use Rattle.std.specs.Str.{IsAscii};
ghost use Rattle.hex.specs.Hex.{encode_lower};

use std::fmt;

/// A byte as two lower-case hexadecimal digits.
#[derive(Clone, Copy, PartialEq, Eq)]
pub struct Hex8(pub u8);

/// A number of 16 bits as four lower-case hexadecimal digits.
#[derive(Clone, Copy, PartialEq, Eq)]
pub struct Hex16(pub u16);

/// A number of 32 bits as eight lower-case hexadecimal digits.
#[derive(Clone, Copy, PartialEq, Eq)]
pub struct Hex32(pub u32);

/// Writes the two lower-case hexadecimal digits of each byte.
pub fn put_digits(bytes: &[u8], into: &mut [u8])
    requires { length into.old ≡ 2 * length bytes.now }
    ensures digits { into.new ≡ encode_lower bytes.now }
    ensures ascii { IsAscii into.new }
{
    match hex::encode_to_slice(bytes, into) {
        Ok(()) => (),
        Err(_) => unreachable!(),
    }
}

/// Bytes below 80 as text.
pub fn ascii_text(bytes: &[u8]) -> &str
    requires { IsAscii bytes.now }
    ensures { result.now ≡ bytes.now }
{
    match str::from_utf8(bytes) {
        Ok(text) => text,
        Err(_) => unreachable!(),
    }
}

impl fmt::Display for Hex8 {
    ghost output = { λ hex. Some (encode_lower (hex.0 ∷ [])) };

    fn fmt<W: fmt::Write>(&self, f: &mut fmt::Formatter<W>) -> fmt::Result {
        let mut digits = [0; 2];
        put_digits(&[self.0], &mut digits);
        f.write_str(ascii_text(&digits))
    }
}

impl fmt::Display for Hex16 {
    ghost output = { λ hex. Some (encode_lower (to_be_bytes w16 hex.0)) };

    fn fmt<W: fmt::Write>(&self, f: &mut fmt::Formatter<W>) -> fmt::Result {
        let mut digits = [0; 4];
        put_digits(&self.0.to_be_bytes(), &mut digits);
        f.write_str(ascii_text(&digits))
    }
}

impl fmt::Display for Hex32 {
    ghost output = { λ hex. Some (encode_lower (to_be_bytes w32 hex.0)) };

    fn fmt<W: fmt::Write>(&self, f: &mut fmt::Formatter<W>) -> fmt::Result {
        let mut digits = [0; 8];
        put_digits(&self.0.to_be_bytes(), &mut digits);
        f.write_str(ascii_text(&digits))
    }
}
