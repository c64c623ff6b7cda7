//! The CRC-32 as it is defined, bit by bit: the reflected polynomial EDB88320, from all ones, and turned at the end.
ghost use Rattle.std.specs.Prelude.{◌≡◌, fold};
ghost use Rattle.ddf_seal.specs.Crc.{bit_step, byte_step, crc_of};

const POLYNOMIAL: u32 = 0xEDB8_8320;

/// The CRC-32 of the bytes, counted bit by bit: the definition's plain body, against which `crc32` is tried.
pub fn plain_crc32(bytes: &[u8]) -> u32
    ensures { result ≡ crc_of bytes.now }
{
    after_bytes(u32::MAX, bytes) ^ u32::MAX
}

fn after_bytes(register: u32, bytes: &[u8]) -> u32
    ensures { result ≡ fold byte_step register bytes.now }
{
    let mut register = register;
    for byte in bytes {
        register = after_byte(register, *byte);
    }
    register
}

fn after_byte(register: u32, byte: u8) -> u32
    ensures { result ≡ byte_step register byte }
{
    let mut register = register ^ u32::from(byte);
    for _ in 0..8u32 {
        register = after_bit(register);
    }
    register
}

fn after_bit(register: u32) -> u32
    ensures { result ≡ bit_step register }
{
    if register % 2 == 1 {
        register / 2 ^ POLYNOMIAL
    } else {
        register / 2
    }
}
