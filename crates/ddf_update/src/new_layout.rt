//! How many records the copies of a new disk have room for, and where they lie (profile). docs/FORMAT.md#a-new-group
ghost use Rattle.std.specs.Prelude.{◌≡◌, ◌≤◌, ◌+◌, ◌*◌};
ghost use Rattle.ddf_update.specs.NewLayouts.{
  copy_length,
  least_sectors,
  numbers_of,
  primary_back,
  rows_of,
  secondary_back,
  workspace_back,
};

/// The sectors of a new disk's workspace (profile).
pub(crate) const WORKSPACE: u32 = 32768;

/// The sectors that a new disk has before its workspace, at the least (profile).
const BEFORE_WORKSPACE: u64 = 151;

/// How many records the copies of a new disk have room for (profile).
#[derive(Clone, Copy)]
pub enum NewLayout {
    /// Those of a group of up to 15 disks.
    Small,
    /// Those of a group of up to 63 disks.
    Large,
}

/// How many records of each kind there are, and how long they are.
#[derive(Clone, Copy)]
pub(crate) struct Numbers {
    /// The rows of a table.
    pub rows: u16,
    /// The sectors of a table.
    pub table_sectors: u16,
    /// The slots of the configuration records.
    pub slots: u16,
    /// The sectors of a slot.
    pub record_length: u16,
    /// The members that a record of an element may list.
    pub members: u16,
}

impl NewLayout {
    pub(crate) fn numbers(self) -> Numbers
        ensures exact { result ≡ numbers_of self }
        ensures few { 2 * result.table_sectors + result.slots * result.record_length ≤ 196 }
        ensures room { 64 + 64 * result.rows ≤ 512 * result.table_sectors }
    {
        match self {
            NewLayout::Small => Numbers {
                rows: 15,
                table_sectors: 2,
                slots: 16,
                record_length: 2,
                members: 16,
            },
            NewLayout::Large => Numbers {
                rows: 63,
                table_sectors: 8,
                slots: 60,
                record_length: 3,
                members: 64,
            },
        }
    }

    /// The most disks of a new group.
    pub fn most_disks(self) -> u16
        ensures { result ≡ rows_of self }
    {
        self.numbers().rows
    }

    /// The sectors of a copy: its header, and six sections behind one another.
    fn copy_length(self) -> u64
        ensures { result ≡ copy_length self }
    {
        let numbers = self.numbers();
        u64::from(4 + 2 * numbers.table_sectors + numbers.slots * numbers.record_length)
    }

    /// Sectors from the primary header of a new disk to its end.
    pub fn primary_back(self) -> u64
        ensures { result ≡ primary_back self }
    {
        self.copy_length() + 1
    }

    /// Sectors from the secondary header of a new disk to its end.
    pub fn secondary_back(self) -> u64
        ensures { result ≡ secondary_back self }
    {
        2 * self.copy_length() + 1
    }

    /// Sectors from the workspace of a new disk to its end.
    pub(crate) fn workspace_back(self) -> u64
        ensures { result ≡ workspace_back self }
    {
        self.secondary_back() + u64::from(WORKSPACE)
    }

    /// The fewest sectors of a new disk.
    pub fn least_sectors(self) -> u64
        ensures { result ≡ least_sectors self }
    {
        self.workspace_back() + BEFORE_WORKSPACE
    }
}
