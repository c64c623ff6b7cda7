//! The lines that `examine` prints of the records of a copy.
use ddf_bytes::{Hex8, Hex16, Hex32};
use ddf_config_records::{Element, Place};
use ddf_name::NameText;
use ddf_tables::{ArrayEntry, DiskEntry};
use std::fmt;

/// A used entry of the physical disk records.
#[derive(Drop)]
pub(crate) struct DiskLine<'a>(pub &'a DiskEntry);

/// A used entry of the virtual disk records.
#[derive(Drop)]
pub(crate) struct ArrayLine<'a>(pub &'a ArrayEntry);

/// Which element of which array.
#[derive(Drop)]
pub(crate) struct ElementName<'a>(pub &'a Element);

/// How an element lies on its members.
#[derive(Drop)]
pub(crate) struct ElementLayout<'a>(pub &'a Element);

/// A member of an element.
#[derive(Drop)]
pub(crate) struct MemberText<'a>(pub &'a Place);

impl fmt::Display for DiskLine<'_> {
    ghost use Rattle.std.specs.Prelude.{Some};
    ghost use Rattle.ddf_tables.specs.declared.disks.DiskRow.TheVariants.{Entry};
    ghost use Rattle.ddf_text.specs.Records.{disk_line};

    ghost output = { λ line. Some (disk_line (Entry line.0.now)) };

    fn fmt<W: fmt::Write>(&self, f: &mut fmt::Formatter<W>) -> fmt::Result {
        let disk = self.0;
        let reference = Hex32(disk.reference);
        let guid = disk.guid;
        let kind = Hex16(disk.kind.0);
        let state = Hex16(disk.state.0);
        let size = disk.size;
        writeln!(
            f,
            "disk {reference} {guid} type {kind} state {state} size {size}"
        )
    }
}

impl fmt::Display for ArrayLine<'_> {
    ghost use Rattle.std.specs.Prelude.{Some};
    ghost use Rattle.ddf_tables.specs.declared.arrays.ArrayRow.TheVariants.{Entry};
    ghost use Rattle.ddf_text.specs.Records.{array_line};

    ghost output = { λ line. Some (array_line (Entry line.0.now)) };

    fn fmt<W: fmt::Write>(&self, f: &mut fmt::Formatter<W>) -> fmt::Result {
        let array = self.0;
        let name = NameText(&array.name);
        let guid = array.guid;
        let number = array.number;
        let state = Hex8(array.state);
        let init = Hex8(array.init);
        writeln!(
            f,
            "array {name} {guid} number {number} state {state} init {init}"
        )
    }
}

impl fmt::Display for ElementName<'_> {
    ghost use Rattle.std.specs.Prelude.{Some};
    ghost use Rattle.ddf_text.specs.Records.{element_name};

    ghost output = { λ name. Some (element_name name.0.now) };

    fn fmt<W: fmt::Write>(&self, f: &mut fmt::Formatter<W>) -> fmt::Result {
        let element: &Element = self.0;
        let array = element.array;
        let index = element.index;
        let elements = element.elements;
        write!(f, " {array} {index} of {elements}")
    }
}

impl fmt::Display for ElementLayout<'_> {
    ghost use Rattle.std.specs.Prelude.{Some};
    ghost use Rattle.ddf_text.specs.Records.{element_layout};

    ghost output = { λ layout. Some (element_layout layout.0.now) };

    fn fmt<W: fmt::Write>(&self, f: &mut fmt::Formatter<W>) -> fmt::Result {
        let element: &Element = self.0;
        let level = Hex8(element.level);
        let qualifier = Hex8(element.qualifier);
        let strip = element.strip;
        let blocks = element.blocks;
        write!(
            f,
            " level {level} {qualifier} strip {strip} blocks {blocks} members"
        )
    }
}

impl fmt::Display for MemberText<'_> {
    ghost use Rattle.std.specs.Prelude.{Some};
    ghost use Rattle.ddf_text.specs.Records.{member_text};

    ghost output = { λ text. Some (member_text text.0.now) };

    fn fmt<W: fmt::Write>(&self, f: &mut fmt::Formatter<W>) -> fmt::Result {
        let reference = Hex32(self.0.reference);
        let start = self.0.start;
        write!(f, " {reference}+{start}")
    }
}
