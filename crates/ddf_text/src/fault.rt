//! The line of a call on a disk that failed.
ghost use Rattle.std.specs.Prelude.{◌≡◌};
ghost use Rattle.ddf_text.specs.Refusal.{disk_fault_line};

use arrayvec::ArrayString;
use itoa::Buffer;

/// The line that names the slot on which a call failed. It takes no memory.
pub fn disk_fault_line(slot: usize) -> ArrayString<64>
    ensures { result.bytes ≡ disk_fault_line slot }
{
    let mut number = Buffer::new();
    let mut line = ArrayString::new();
    line.push_str("disk fault slot ");
    line.push_str(number.format(slot));
    line.push_str("\n");
    line
}
