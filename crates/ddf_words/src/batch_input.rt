//! The text of a batch, as the input gives it: whole, before the first line is run, or none. docs/COMMANDS.md#batch
ghost use Rattle.std.specs.Prelude.{◌≡◌, length, IfErr, IfOk};
ghost use Rattle.ddf_words.specs.Input.{IsRead, IsUnread};

use ddf_bytes::{NoMemory, Source, fill_from};
use std::alloc::Global;

/// The most bytes of a batch.
const MOST_BYTES: usize = 65536;

/// Why there is no text of a batch.
#[derive(Clone, Copy)]
pub enum BatchFault {
    /// More bytes were left than a batch has.
    Long,
    /// A read of the input failed.
    Failed,
    /// Memory ran out, before anything was read.
    Memory,
}

impl From<NoMemory> for BatchFault {
    ghost use Rattle.ddf_words.specs.declared.batch_input.BatchFault.TheVariants.{Memory};

    ghost from_gives = { λ _ fault. fault ≡ Memory };

    fn from(_error: NoMemory) -> BatchFault {
        BatchFault::Memory
    }
}

/// So many bytes, all zeros.
fn zeros(alloc: Global, size: usize) -> Result<Vec<u8>, NoMemory>
    ensures { IfOk result (λ bytes. length bytes.items ≡ size) }
{
    let bytes = vec![in alloc; 0; size]?;
    Ok(bytes)
}

/// Reads the whole text of a batch, at most 65,536 bytes.
pub fn read_batch<S: Source>(alloc: Global, source: &mut S) -> Result<Vec<u8>, BatchFault>
    ensures read { IfOk result (λ text. IsRead S.tells (S.input source.old) (S.input source.new) text.items) }
    ensures fault { IfErr result (IsUnread S.tells (S.input source.old) (S.input source.new)) }
{
    let mut text = zeros(alloc, MOST_BYTES + 1)?;
    match fill_from(source, &mut text) {
        Ok(count) if count <= MOST_BYTES => {
            text.truncate(count);
            Ok(text)
        }
        Ok(_) => Err(BatchFault::Long),
        Err(_) => Err(BatchFault::Failed),
    }
}
