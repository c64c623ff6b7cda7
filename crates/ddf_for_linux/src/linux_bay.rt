//! Which slots of a bay are Linux's, through the bay above the one that turns their records. docs/LINUX-SEALS.md#a-bay-over-a-bay
use ddf_bay::Bay;
use ddf_boxed::Boxed;
use ddf_hidden_logs::Honoured;
use ddf_linux::Turned;

/// A bay that says of which slots the records are turned.
pub trait LinuxBay: Bay {
    /// Whether records of a slot are turned, where there is such a slot.
    fn turns(&self, slot: usize) -> bool;
}

impl<B: Bay + Drop> LinuxBay for Turned<B> {
    fn turns(&self, slot: usize) -> bool {
        slot < self.slots() && Turned::turns(self, slot)
    }
}

impl<B: LinuxBay + Drop> LinuxBay for Boxed<B> {
    fn turns(&self, slot: usize) -> bool {
        self.inner().turns(slot)
    }
}

impl<B: LinuxBay + Drop> LinuxBay for Honoured<B> {
    fn turns(&self, slot: usize) -> bool {
        self.inner().turns(slot)
    }
}
