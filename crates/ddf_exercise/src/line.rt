//! What an exercise tells.
ghost use Rattle.std.specs.Prelude.{◌≡◌};
ghost use Rattle.ddf_exercise.specs.Exercise.{line_saying};

use arrayvec::ArrayString;
use itoa::Buffer;

/// The line that says so many writes of so many blocks were done, the sum of the array's bytes, and the sequence number of the group. It takes no memory.
pub fn line_saying(writes: u64, blocks: u64, sum: u64, sequence: u64) -> ArrayString<160>
    ensures { result.bytes ≡ line_saying writes blocks sum sequence }
{
    let mut number = Buffer::new();
    let mut line = ArrayString::new();
    line.push_str("exercise writes ");
    line.push_str(number.format(writes));
    line.push_str(" blocks ");
    line.push_str(number.format(blocks));
    line.push_str(" sum ");
    line.push_str(number.format(sum));
    line.push_str(" sequence ");
    line.push_str(number.format(sequence));
    line.push_str("\n");
    line
}
