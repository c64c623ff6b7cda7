//! Cells that are read before blocks are written, and kept until their parity is.
ghost use Rattle.std.specs.Prelude.{◌≡◌, [], OnOk};
ghost use Rattle.ddf_write.specs.Keeping.{KeepsOne, kept_of};

use ddf_bytes::{NoMemory, Sector};
use indexmap::IndexMap;
use std::alloc::Global;
use std::marker::Model;

/// A sector of a position of an element of an array.
#[derive(Clone, Copy, PartialEq, Eq, Hash)]
pub struct DataCell {
    /// The number of the element.
    pub element: usize,
    /// The number of the position.
    pub position: usize,
    /// The sector of the position's extent, from 0 on.
    pub sector: u64,
}

/// The values of cells, as they were read before a write. Contracts see it as a list of cells with their bytes.
#[derive(Drop)]
pub struct Kept {
    cells: IndexMap<DataCell, Sector>,
}

impl Model for Kept {
    ghost use Rattle.ddf_write.specs.Keeping.{Keeping};

    ghost Value = { Keeping };

    ghost view = { λ kept. kept.cells.entries };
}

impl Kept {
    /// No cell is kept.
    pub(crate) fn new(alloc: Global) -> Kept
        ensures { result ≡ [] }
    {
        Kept {
            cells: IndexMap::new(alloc),
        }
    }

    /// Keeps the bytes of a cell.
    pub(crate) fn keep(&mut self, cell: DataCell, bytes: &Sector) -> Result<(), NoMemory>
        ensures { OnOk result (KeepsOne self.old self.new cell.element cell.position cell.sector bytes.now) }
    {
        self.cells.insert(cell, *bytes)?;
        Ok(())
    }

    /// The bytes that are kept of a cell.
    pub(crate) fn bytes_of(&self, cell: DataCell) -> Option<Sector>
        ensures { result ≡ kept_of self.now cell.element cell.position cell.sector }
    {
        self.cells.get(&cell).copied()
    }
}
