//! Whole transfers to and from a file. A call that the system interrupted is made again: taken for a failure it would lose a disk for good. One
//! that fails isn't. docs/FAULTS.md#a-call-that-a-signal-interrupts
ghost use Rattle.std.specs.Prelude.{◌≡◌, ◌*◌, ◌/◌, ◌<◌, ◌^◌, length, IsSome, IfSome, IfOk, IsErr, OnOk, false, is_ok};
ghost use Rattle.std.specs.Io.Seek.{MovesTo};
ghost use Rattle.ddf_bay.specs.Files.{allows_writes, AreBoth, IsReadAt, IsWrittenAt};

use crate::BayFailed;
use crate::access::Access;
use std::fs::OpenFile;
use std::io;
use std::io::{Read, Seek, SeekFrom, Write};

/// The bytes of a sector.
const SECTOR_BYTES: u64 = 512;

fn seek_to<F: Seek>(file: &mut F, lba: u64) -> Result<(), BayFailed>
    requires { lba < 2 ^ 55 }
    ensures { MovesTo (F.stream_position file.old) (F.stream_position file.new) (lba * 512) result }
{
    file.seek(SeekFrom::Start(lba * SECTOR_BYTES))
        .map_err(|_| BayFailed)?;
    Ok(())
}

/// The whole sectors of a file or a block device, by its end.
pub(crate) fn sectors_of<F: Seek>(file: &mut F) -> io::Result<u64>
    ensures small { IfOk result (λ size. size < 2 ^ 55) }
    // It is the size where std knows the bytes and the position.
    ensures size { IsSome (F.stream_position file.old) → IfSome (F.stream_bytes file.old) (λ bytes. IfOk result (λ size. size ≡ length bytes / 512)) }
{
    let bytes = file.seek(SeekFrom::End(0))?;
    Ok(bytes / SECTOR_BYTES)
}

/// Reads the bytes of a run.
fn read_at<F: Read + Seek>(file: &mut F, lba: u64, into: &mut [u8]) -> Result<(), BayFailed>
    requires { lba < 2 ^ 55 }
    ensures { OnOk result (IsReadAt F.stream_position F.remaining file.old file.new (lba * 512) into.new) }
{
    seek_to(file, lba)?;
    file.read_exact(into).map_err(|_| BayFailed)?;
    Ok(())
}

/// Writes the bytes of a run.
fn write_at<F: Write + Seek>(file: &mut F, lba: u64, from: &[u8]) -> Result<(), BayFailed>
    requires { lba < 2 ^ 55 }
    ensures { OnOk result (IsWrittenAt F.stream_position F.contents file.old file.new (lba * 512) from.now) }
{
    seek_to(file, lba)?;
    file.write_all(from).map_err(|_| BayFailed)?;
    Ok(())
}

/// Reads the bytes of a run, from a file that could be opened. An end before the last of them is a failure.
pub(crate) fn read_bytes<F: Read + Seek>(
    file: &mut Result<F, io::Error>,
    lba: u64,
    into: &mut [u8],
) -> Result<(), BayFailed>
    requires { lba < 2 ^ 55 }
    ensures same { is_ok file.new ≡ is_ok file.old }
    ensures from { OnOk result (AreBoth file.old file.new (λ old new. IsReadAt F.stream_position F.remaining old new (lba * 512) into.new)) }
{
    match file {
        Ok(file) => read_at(file, lba, into),
        Err(_) => Err(BayFailed),
    }
}

/// Writes the bytes of a run, to a file that could be opened for it.
pub(crate) fn write_bytes<F: Write + Seek>(
    file: &mut Result<F, io::Error>,
    access: Access,
    lba: u64,
    from: &[u8],
) -> Result<(), BayFailed>
    requires { lba < 2 ^ 55 }
    ensures same { is_ok file.new ≡ is_ok file.old }
    ensures to { OnOk result (AreBoth file.old file.new (λ old new. IsWrittenAt F.stream_position F.contents old new (lba * 512) from.now)) }
    ensures reads { allows_writes access ≡ false → IsErr result }
    ensures untouched { allows_writes access ≡ false → file.new ≡ file.old }
{
    if access == Access::Read {
        return Err(BayFailed);
    }
    match file {
        Ok(file) => write_at(file, lba, from),
        Err(_) => Err(BayFailed),
    }
}

/// Makes all that was written sure, of a file that could be opened.
pub(crate) fn sync_file<F: OpenFile>(file: &Result<F, io::Error>) -> Result<(), BayFailed>
    ensures { is_ok file.now ≡ false → IsErr result }
{
    match file {
        Ok(file) => file.sync_all().map_err(|_| BayFailed),
        Err(_) => Err(BayFailed),
    }
}
