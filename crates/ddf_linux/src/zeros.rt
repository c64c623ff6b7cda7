//! The CRC of zeros, by which the CRCs of the standard and of Linux differ.
ghost use Rattle.std.specs.Prelude.{◌≡◌, ◌+◌, ◌*◌, ◌<◌, ◌^◌, ℕ, List, length, bit_xor};
ghost use Rattle.ddf_seal.specs.Crc.{bit_step, bit_steps, byte_step, crc_of};
ghost use Rattle.ddf_linux.specs.Crcs.{constant_of, linux_crc_of};
ghost use Rattle.ddf_linux.specs.Zeros.{AreImages};
ghost use Rattle.std.proofs.Props.{props};

const POLYNOMIAL: u32 = 0xEDB8_8320;

/// What so many zeros make of a register that has a single bit, for each of the 32 bits.
type Images = [u32; 32];

/// By what the standard's CRC of so many bytes and Linux's differ, whatever the bytes are: the standard's CRC of as many
/// zeros. It takes time by the number of digits of the count.
pub fn constant_of(count: u64) -> u32
    ensures exact { result ≡ constant_of count }
    ensures differ { (bytes : List ℕ) → length bytes ≡ count → bit_xor (crc_of bytes) (linux_crc_of bytes) ≡ result }
{
    after_zeros(&byte_images(), u32::MAX, count) ^ u32::MAX
}

/// What a sector of zeros makes of a register. Steps over zeros are linear: what they make of a register is the sum of what
/// they make of its bits.
#[derive(Clone, Copy)]
pub(crate) struct SectorZeros {
    images: Images,
    ghost are: { AreImages 4096 images } by { Prim.hlevel props },
}

impl SectorZeros {
    /// Counts what a sector of zeros makes of each bit.
    pub fn new() -> SectorZeros {
        SectorZeros {
            images: sector_images(),
        }
    }

    /// By what the two CRCs of so many sectors differ.
    pub fn constant(&self, sectors: u32) -> u32
        ensures { result ≡ constant_of (512 * sectors) }
    {
        after_zeros(&self.images, u32::MAX, u64::from(sectors)) ^ u32::MAX
    }
}

/// The register after the zeros of some images, so many times.
fn after_zeros(images: &Images, register: u32, count: u64) -> u32
    ensures { (steps : ℕ) → AreImages steps images.now → result ≡ bit_steps (steps * count) register }
{
    let mut register = register;
    let mut images = *images;
    let mut rest = count;
    while rest > 1 {
        if rest % 2 == 1 {
            register = image_of(&images, register);
        }
        images = twice(&images);
        rest /= 2;
    }
    if rest == 1 {
        register = image_of(&images, register);
    }
    register
}

/// The images after a sector of zeros.
fn sector_images() -> Images
    ensures { AreImages 4096 result }
{
    let mut images = byte_images();
    for _ in 0..9u32 {
        images = twice(&images);
    }
    images
}

/// The images after one byte of zero.
fn byte_images() -> Images
    ensures { AreImages 8 result }
{
    let mut images = [0; 32];
    for (bit, image) in images.iter_mut().enumerate() {
        *image = after_zero(1 << bit);
    }
    images
}

/// The images after twice as many zeros.
fn twice(images: &Images) -> Images
    ensures { (count : ℕ) → AreImages count images.now → AreImages (count + count) result }
{
    let mut doubled = [0; 32];
    for (bit, image) in images.iter().enumerate() {
        doubled[bit] = image_of(images, *image);
    }
    doubled
}

/// What the zeros make of a register.
fn image_of(images: &Images, register: u32) -> u32
    ensures { (count : ℕ) → AreImages count images.now → result ≡ bit_steps count register }
{
    let mut sum = 0;
    let mut rest = register;
    for image in images {
        if rest % 2 == 1 {
            sum ^= *image;
        }
        rest /= 2;
    }
    sum
}

/// The register after a byte of zero.
fn after_zero(register: u32) -> u32
    ensures { result ≡ bit_steps 8 register }
{
    let mut register = register;
    for _ in 0..8u32 {
        register = after_bit(register);
    }
    register
}

fn after_bit(register: u32) -> u32
    ensures { result ≡ bit_step register }
{
    if register % 2 == 1 {
        register / 2 ^ POLYNOMIAL
    } else {
        register / 2
    }
}
