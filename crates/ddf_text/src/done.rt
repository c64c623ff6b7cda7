//! The lines of a change that is done.
ghost use Rattle.std.specs.Prelude.{◌≡◌};
ghost use Rattle.ddf_text.specs.Done.{cut_line, sequence_line};

use arrayvec::ArrayString;
use itoa::Buffer;

/// The line that tells the sequence number of the group after a change. It takes no memory.
pub fn sequence_line(sequence: u32) -> ArrayString<64>
    ensures { result.bytes ≡ sequence_line sequence }
{
    let mut number = Buffer::new();
    let mut line = ArrayString::new();
    line.push_str("ok sequence ");
    line.push_str(number.format(sequence));
    line.push_str("\n");
    line
}

/// The line that tells how many blocks of a write are written, where the input ended before the others, and the sequence number of the group after it. It takes
/// no memory.
pub fn cut_line(blocks: u64, sequence: u32) -> ArrayString<64>
    ensures { result.bytes ≡ cut_line blocks sequence }
{
    let mut number = Buffer::new();
    let mut line = ArrayString::new();
    line.push_str("cut ");
    line.push_str(number.format(blocks));
    line.push_str(" sequence ");
    line.push_str(number.format(sequence));
    line.push_str("\n");
    line
}
