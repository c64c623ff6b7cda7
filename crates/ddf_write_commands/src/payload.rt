//! The bytes of blocks, as the input gives them. The first piece is read before the first write, so an input that ends within it changes nothing.
//! docs/COMMANDS.md#write
ghost use Rattle.std.specs.Prelude.{◌≡◌, ◌≤◌, ◌<◌, ◌*◌, ℕ, length, IfOk, IfErr, IfSome, OnOk};
ghost use Rattle.ddf_answer.specs.Call.{input_of};
ghost use Rattle.ddf_write_commands.specs.Payload.{IsFirstPiece, IsNoPayload, first_piece, pieces_of, room_of};

use ddf_bytes::{NoMemory, Source, fill_from};
use ddf_write::{Beside, piece_of};
use std::alloc::Global;

/// Why there are no bytes of blocks.
pub(crate) enum PayloadFault {
    /// The input ended within the first piece: so many bytes were left.
    Short(u64),
    /// A read of the input failed.
    Failed,
    /// Memory ran out, before anything was read.
    Memory,
}

impl From<NoMemory> for PayloadFault {
    ghost use Rattle.ddf_write_commands.specs.declared.payload.PayloadFault.TheVariants.{Memory};

    ghost from_gives = { λ _ fault. fault ≡ Memory };

    fn from(_error: NoMemory) -> PayloadFault {
        PayloadFault::Memory
    }
}

/// So many bytes, all zeros.
fn zeros(alloc: Global, size: usize) -> Result<Vec<u8>, NoMemory>
    ensures { IfOk result (λ bytes. length bytes.items ≡ size) }
{
    let bytes = vec![in alloc; 0; size]?;
    Ok(bytes)
}

/// How many bytes of room a piece of so many blocks takes. None where that is more than memory has numbers for.
fn room_of(beside: &Beside, count: u64) -> Option<u64>
    ensures { IfSome result (λ size. size ≡ 512 * room_of (pieces_of beside.now) count) }
{
    let blocks = beside.each.min(count).max(1);
    blocks.checked_mul(512)
}

/// The blocks of the first piece of so many.
fn first_piece(beside: &Beside, count: u64) -> u64
    requires { 0 < beside.now.each }
    ensures { result ≡ first_piece (pieces_of beside.now) count }
{
    piece_of(beside.each, beside.ahead, 0, count)
}

/// Reads the bytes of the first piece of so many blocks to the beginning of the room for a piece, and not a byte more of the input.
fn fill_first<S: Source>(
    source: &mut S,
    beside: &Beside,
    count: u64,
    room: &mut [u8],
) -> Result<(), PayloadFault>
    requires some { 0 < beside.now.each }
    requires room { length room.old ≡ 512 * room_of (pieces_of beside.now) count }
    ensures read { OnOk result (IsFirstPiece (input_of S.tells (S.input source.old) (S.input source.new)) (pieces_of beside.now) count room.new) }
    ensures fault { IfErr result (IsNoPayload (input_of S.tells (S.input source.old) (S.input source.new)) (pieces_of beside.now) count) }
    ensures never_falls { (S.input source.old).faults ≤ (S.input source.new).faults }
{
    let size = 512 * first_piece(beside, count) as usize;
    match fill_from(source, &mut room[..size]) {
        Ok(found) if found == size => Ok(()),
        Ok(found) => Err(PayloadFault::Short(found as u64)),
        Err(_) => Err(PayloadFault::Failed),
    }
}

/// Room for a piece of so many blocks, as these were looked at. It begins with the bytes of the first piece, as the input gives them, and not a byte more of it
/// is read.
pub(crate) fn read_first<S: Source>(
    alloc: Global,
    source: &mut S,
    beside: &Beside,
    count: u64,
) -> Result<Vec<u8>, PayloadFault>
    requires { 0 < beside.now.each }
    ensures read { IfOk result (λ room. IsFirstPiece (input_of S.tells (S.input source.old) (S.input source.new)) (pieces_of beside.now) count room.items) }
    ensures fault { IfErr result (IsNoPayload (input_of S.tells (S.input source.old) (S.input source.new)) (pieces_of beside.now) count) }
    ensures never_falls { (S.input source.old).faults ≤ (S.input source.new).faults }
{
    let size = match room_of(beside, count) {
        Some(size) => size as usize,
        None => return Err(PayloadFault::Memory),
    };
    let mut room = zeros(alloc, size)?;
    fill_first(source, beside, count, &mut room)?;
    Ok(room)
}
