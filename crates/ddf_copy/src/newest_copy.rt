//! Which of a disk's two copies counts. Two copies of one sequence that differ are told and not chosen between: nothing says which is right.
//! docs/FORMAT.md#the-newest-copy
ghost use Rattle.std.specs.Prelude.{◌≡◌, option_map};
ghost use Rattle.ddf_copy.specs.Copies.{standing_copy, newest_of_both};
ghost use Rattle.ddf_copy.specs.Shows.{IsLast, last_of};

use crate::copy::DiskCopy;
use crate::fault::CopyFault;
use crate::which::Which;

/// The newest copy of a disk (SNIA DDF 2.0, header update rules).
#[derive(Drop)]
pub enum Newest {
    /// The only whole copy, or that of the greater sequence.
    One(Which, DiskCopy),
    /// Two level copies. The primary one stands for both.
    Level(DiskCopy),
    /// No copy is whole: why the primary one isn't, and why the secondary one isn't.
    Neither(CopyFault, CopyFault),
    /// Two whole copies of one sequence that aren't level: the primary and the secondary one.
    TwoDiffer(DiskCopy, DiskCopy),
}

impl Newest {
    /// The copy that an update of the disk writes last (profile): the newest one, and of two of one sequence the secondary
    /// one. A disk with no whole copy has none; the answer is then the secondary one too.
    pub fn last(&self) -> Which
        ensures value { result ≡ last_of self.now }
        ensures shown { IsLast self.now result }
    {
        self.place()
    }

    /// The copy that stands for the disk: of two that differ the primary one.
    pub fn copy(&self) -> Option<&DiskCopy>
        ensures { option_map (λ copy. copy.now) result ≡ standing_copy self.now }
    {
        match self {
            Newest::One(_, copy) | Newest::Level(copy) | Newest::TwoDiffer(copy, _) => Some(copy),
            Newest::Neither(..) => None,
        }
    }

    fn place(&self) -> Which
        ensures { result ≡ last_of self.now }
    {
        match self {
            Newest::One(which, _) => *which,
            Newest::Level(_) | Newest::TwoDiffer(..) | Newest::Neither(..) => Which::Secondary,
        }
    }
}

/// The newest of two whole copies, which are level or not where they have one sequence.
pub(crate) fn newest_of_both(level: bool, primary: DiskCopy, secondary: DiskCopy) -> Newest
    ensures { result ≡ newest_of_both level primary secondary }
{
    if primary.header.sequence < secondary.header.sequence {
        return Newest::One(Which::Secondary, secondary);
    }
    if secondary.header.sequence < primary.header.sequence {
        return Newest::One(Which::Primary, primary);
    }
    if level {
        Newest::Level(primary)
    } else {
        Newest::TwoDiffer(primary, secondary)
    }
}
