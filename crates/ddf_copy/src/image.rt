//! The bytes of a copy.
ghost use Rattle.std.specs.Prelude.{◌≡◌, ◌*◌, ◌++◌, ℕ, List, IfOk, Ok, length};
ghost use Rattle.std.specs.List.{flat_map};
ghost use Rattle.ddf_header.specs.declared.reading.Header.{Header};
ghost use Rattle.ddf_copy.specs.Copies.{copy_of};
ghost use Rattle.ddf_copy.specs.Headers.{IsUnder, written_as};
ghost use Rattle.ddf_copy.specs.Image.{AreLong, HoldsImage, image_written};
ghost use Rattle.ddf_copy.specs.Sections.{bytes_in, raw_bytes};
ghost use Rattle.ddf_copy.specs.Which.{place_of};
ghost use Rattle.ddf_copy.specs.Written.{CanBeCopy};

use crate::copy::DiskCopy;
use crate::raw::Raw;
use crate::which::Which;
use crate::writing::raw_of;
use ddf_bytes::{NoMemory, Sector, Seq};
use ddf_header::encode;
use std::alloc::Global;

/// The bytes of a copy in its place: the sector of its closed header, and behind it those of its sections that are written,
/// in the order of the header. The copy is one that can stand on a disk.
pub fn image_of(alloc: Global, copy: &DiskCopy, which: Which) -> Result<Vec<u8>, NoMemory>
    requires { CanBeCopy copy.now }
    ensures image { IfOk result (λ image. image.items ≡ image_written copy.now which) }

    // A disk that holds these bytes where they are read, under an anchor that the copy fits, has the copy whole.
    ensures whole { IfOk result (λ image. (size : ℕ) (sector : ℕ → List ℕ) (anchor : Header) → IsUnder size anchor copy.now
        → HoldsImage sector (place_of which anchor) copy.now.header.geometry image.items
        → copy_of size sector anchor which ≡ Ok (written_as copy.now which)) }
{
    let raw = raw_of(alloc, copy)?;
    let header = encode(&copy.closed_header(which));
    let image = joined(alloc, &header, &raw)?;
    Ok(image)
}

/// A header and its sections.
fn joined(alloc: Global, header: &Sector, raw: &Raw) -> Result<Vec<u8>, NoMemory>
    ensures bytes { IfOk result (λ image. image.items ≡ header.now ++ flat_map (λ section. section) (raw_bytes raw.now)) }
    ensures long { IfOk result (λ image. AreLong raw.now) }
{
    let mut image = Vec::from_slice(alloc, header)?;
    image.extend_from_slice(&raw.controller)?;
    add_section(&mut image, &raw.disks)?;
    add_section(&mut image, &raw.arrays)?;
    add_section(&mut image, &raw.records)?;
    image.extend_from_slice(&raw.disk_data)?;
    add_section(&mut image, &raw.bad_blocks)?;
    Ok(image)
}

fn add_section(image: &mut Vec<u8>, section: &Seq<Sector>) -> Result<(), NoMemory>
    ensures bytes { IfOk result (λ done. image.new.items ≡ image.old.items ++ bytes_in section.now) }
    ensures long { length (bytes_in section.now) ≡ 512 * length section.now }
{
    image.extend_from_slice(section.items().as_flattened())?;
    Ok(())
}
