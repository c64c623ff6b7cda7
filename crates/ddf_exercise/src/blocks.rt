//! The blocks of the array, by the byte that fills each.
ghost use Rattle.std.specs.Prelude.{◌≡◌, ◌≤◌, IfOk, IsTrue, length};
ghost use Rattle.std.specs.List.{list_all, sum};
ghost use Rattle.ddf_exercise.specs.Blocks.{behind_step, block_of, blocks_behind, blocks_in, bytes_of_blocks, written_by, zero_blocks};
ghost use Rattle.ddf_exercise.specs.Steps.{fits};

use crate::steps::Step;
use ddf_bytes::NoMemory;
use std::alloc::Global;

/// So many blocks, zeros at first, behind the writes among these steps.
pub fn blocks_behind(alloc: Global, count: usize, steps: &[Step]) -> Result<Vec<u8>, NoMemory>
    requires enough { 8192 ≤ count }
    requires fit { IsTrue (list_all fits steps.now) }
    ensures blocks { IfOk result (λ blocks. blocks.items ≡ blocks_behind steps.now (zero_blocks count)) }
    ensures count { IfOk result (λ blocks. length blocks.items ≡ count) }
{
    let mut blocks = zeros(alloc, count)?;
    for step in steps {
        take_in(&mut blocks, *step);
    }
    Ok(blocks)
}

/// So many blocks of zeros.
#[tactic(auto, unfolding(crate::specs::Blocks::zero_blocks))]
fn zeros(alloc: Global, count: usize) -> Result<Vec<u8>, NoMemory>
    ensures blocks { IfOk result (λ blocks. blocks.items ≡ zero_blocks count) }
    ensures count { IfOk result (λ blocks. length blocks.items ≡ count) }
{
    let blocks = vec![in alloc; 0; count]?;
    Ok(blocks)
}

/// Fills the blocks that a step writes.
fn take_in(blocks: &mut [u8], step: Step)
    requires enough { 8192 ≤ length blocks.old }
    requires fits { IsTrue (fits step) }
    ensures { blocks.new ≡ behind_step step blocks.old }
{
    if let Step::Write(fill) = step {
        let start = fill.start as usize;
        blocks[start..start + fill.count as usize].fill(fill.byte);
    }
}

/// The bytes of blocks.
pub fn bytes_of_blocks(alloc: Global, blocks: &[u8]) -> Result<Vec<u8>, NoMemory>
    ensures { IfOk result (λ bytes. bytes.items ≡ bytes_of_blocks blocks.now) }
{
    let mut bytes = Vec::new(alloc);
    for block in blocks {
        bytes.extend_from_slice(&block_of(*block))?;
    }
    Ok(bytes)
}

/// The bytes of a block that is filled with one.
#[tactic(auto, unfolding(crate::specs::Blocks::block_of))]
fn block_of(byte: u8) -> [u8; 512]
    ensures { result ≡ block_of byte }
{
    [byte; 512]
}

/// The sum of the bytes of blocks.
pub fn sum_of_blocks(blocks: &[u8]) -> u64
    requires { length blocks.now ≤ 8192 }
    ensures { result ≡ sum (bytes_of_blocks blocks.now) }
{
    let mut sum = 0;
    for block in blocks {
        sum += 512 * u64::from(*block);
    }
    sum
}

/// How many blocks a step writes.
fn written_by(step: Step) -> u64
    ensures { result ≡ written_by step }
{
    match step {
        Step::Write(fill) => fill.count,
        _ => 0,
    }
}

/// How many blocks steps write.
pub fn blocks_in(steps: &[Step]) -> u64
    requires few { length steps.now ≤ 1024 }
    requires fit { IsTrue (list_all fits steps.now) }
    ensures { result ≡ blocks_in steps.now }
{
    let mut blocks = 0;
    for step in steps {
        blocks += written_by(*step);
    }
    blocks
}
