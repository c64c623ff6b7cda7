//! The lines of records of one group that contradict each other.
use ddf_bytes::Hex32;
use ddf_group::Differ;
use std::fmt;

/// Two newest records of a group that contradict each other, as the line that is printed, without its end.
#[derive(Drop)]
pub struct ConflictText {
    /// The slot of the one record.
    pub i: usize,
    /// The slot of the other one.
    pub j: usize,
    /// Their sequence number.
    pub sequence: u32,
    /// In what they do.
    pub differ: Differ,
}

/// A newest record and an older one that lists its disk as missing, as the line that is printed, without its end.
#[derive(Drop)]
pub struct SplitText {
    /// The slot of the newest record.
    pub i: usize,
    /// The slot of the older one.
    pub j: usize,
}

/// In what two records contradict each other.
#[derive(Drop)]
struct DifferText(Differ);

impl fmt::Display for ConflictText {
    ghost use Rattle.std.specs.Prelude.{Some};
    ghost use Rattle.ddf_text.specs.Conflicts.{conflict_text};

    ghost output = { λ text. Some (conflict_text text.i text.j text.sequence text.differ) };

    fn fmt<W: fmt::Write>(&self, f: &mut fmt::Formatter<W>) -> fmt::Result {
        let i = self.i;
        let j = self.j;
        let sequence = self.sequence;
        let differ = DifferText(self.differ);
        write!(f, "conflict slots {i} {j} sequence {sequence} {differ}")
    }
}

impl fmt::Display for SplitText {
    ghost use Rattle.std.specs.Prelude.{Some};
    ghost use Rattle.ddf_text.specs.Conflicts.{split_text};

    ghost output = { λ text. Some (split_text text.i text.j) };

    fn fmt<W: fmt::Write>(&self, f: &mut fmt::Formatter<W>) -> fmt::Result {
        let i = self.i;
        let j = self.j;
        write!(f, "split slots {i} {j}")
    }
}

impl fmt::Display for DifferText {
    ghost use Rattle.std.specs.Prelude.{Some};
    ghost use Rattle.ddf_text.specs.Conflicts.{differ_text};

    ghost output = { λ text. Some (differ_text text.0) };

    fn fmt<W: fmt::Write>(&self, f: &mut fmt::Formatter<W>) -> fmt::Result {
        match self.0 {
            Differ::Copies => write!(f, "copies"),
            Differ::Twin(reference) => write!(f, "twin {}", Hex32(reference)),
            Differ::Disk(reference) => write!(f, "disk {}", Hex32(reference)),
            Differ::Array(guid) => write!(f, "array {guid}"),
            Differ::Element(array, index) => write!(f, "element {array} {index}"),
        }
    }
}
