//! The lines that `examine` prints of a slot.
ghost use Rattle.std.specs.Prelude.{◌≡◌, ◌++◌, IfOk};
ghost use Rattle.std.specs.String.{string_bytes};
ghost use Rattle.ddf_text.specs.CopyText.{copies_text, copy_lines};
ghost use Rattle.ddf_text.specs.Report.{IsTold, closed_sequence, closed_text, head_text, report_text, view_text};

use crate::listing::push_newest;
use crate::reason::{CopyReason, Reason};
use crate::view::{DiskView, HeaderView, Headers};
use ddf_bytes::NoMemory;
use ddf_copy::{Copies, CopyFault, DiskCopy, ShowFault};
use ddf_header::{Header, Revision};
use std::alloc::Global;
use std::fmt;

/// The lines of a slot's headers.
#[derive(Drop)]
struct HeadText<'a> {
    slot: usize,
    sectors: u64,
    headers: &'a Headers,
}

/// The group, and the size of the slot.
#[derive(Drop)]
struct GroupLine<'a> {
    slot: usize,
    sectors: u64,
    anchor: &'a Header,
}

/// Where the headers and the workspace lie.
#[derive(Drop)]
struct PlaceLine<'a> {
    sectors: u64,
    anchor: &'a Header,
}

/// The two headers, and which one counts.
#[derive(Drop)]
struct HeadersLines<'a>(&'a Headers);

/// A primary or secondary header.
#[derive(Drop)]
struct HeaderText<'a>(&'a HeaderView);

/// Whether a copy is whole.
#[derive(Drop)]
struct CopyLine<'a> {
    which: &'static str,
    copy: &'a Result<DiskCopy, CopyFault>,
}

/// Whether each copy is whole.
#[derive(Drop)]
struct CopyLines<'a>(&'a Copies);

/// A revision as it stands in a header.
#[derive(Drop)]
struct RevisionText(Revision);

/// The lines of a slot: what it shows, or that a call on it failed.
pub fn slot_text(
    alloc: Global,
    slot: usize,
    sectors: u64,
    view: Result<DiskView, ShowFault>,
) -> Result<String, NoMemory>
    ensures text { IfOk result (λ text. string_bytes text ≡ report_text slot sectors view) }
    ensures told { IfOk result (λ text. IsTold view) }
{
    match view {
        Ok(view) => view_text(alloc, slot, sectors, view),
        Err(ShowFault::Disk(_)) => Ok(format!(in alloc; "slot {slot} fault\n")?),
        Err(ShowFault::Memory) => Err(NoMemory),
    }
}

fn view_text(alloc: Global, slot: usize, sectors: u64, view: DiskView) -> Result<String, NoMemory>
    ensures { IfOk result (λ text. string_bytes text ≡ view_text slot sectors view) }
{
    match view {
        DiskView::Blank => Ok(format!(in alloc; "slot {slot} blank\n")?),
        DiskView::Damaged(fault) => {
            let reason = Reason(&fault);
            Ok(format!(in alloc; "slot {slot} damaged {reason}\n")?)
        }
        DiskView::Headers(headers) => headers_text(alloc, slot, sectors, headers),
    }
}

fn headers_text(
    alloc: Global,
    slot: usize,
    sectors: u64,
    headers: Headers,
) -> Result<String, NoMemory>
    ensures { IfOk result (λ text. string_bytes text ≡ head_text slot sectors headers ++ copies_text headers.copies) }
{
    let mut text = front_text(alloc, slot, sectors, &headers)?;
    push_newest(alloc, &mut text, &headers.copies.newest())?;
    Ok(text)
}

/// The lines of the headers, and whether each copy is whole.
fn front_text(
    alloc: Global,
    slot: usize,
    sectors: u64,
    headers: &Headers,
) -> Result<String, NoMemory>
    ensures { IfOk result (λ text. string_bytes text ≡ head_text slot sectors headers.now ++ copy_lines headers.now.copies) }
{
    let head = HeadText {
        slot,
        sectors,
        headers,
    };
    let copies = CopyLines(&headers.copies);
    Ok(format!(in alloc; "{head}{copies}")?)
}

impl fmt::Display for HeadText<'_> {
    ghost use Rattle.std.specs.Prelude.{Some};
    ghost use Rattle.ddf_text.specs.Report.{head_text};

    ghost output = { λ head. Some (head_text head.slot head.sectors head.headers.now) };

    #[tactic(auto, unfolding(crate::specs::Report::head_text))]
    fn fmt<W: fmt::Write>(&self, f: &mut fmt::Formatter<W>) -> fmt::Result {
        let anchor = &self.headers.anchor;
        let group = GroupLine {
            slot: self.slot,
            sectors: self.sectors,
            anchor,
        };
        let place = PlaceLine {
            sectors: self.sectors,
            anchor,
        };
        write!(f, "{group}{place}{}", HeadersLines(self.headers))
    }
}

impl fmt::Display for GroupLine<'_> {
    ghost use Rattle.std.specs.Prelude.{Some};
    ghost use Rattle.ddf_text.specs.Report.{group_line};

    ghost output = { λ line. Some (group_line line.slot line.sectors line.anchor.now) };

    fn fmt<W: fmt::Write>(&self, f: &mut fmt::Formatter<W>) -> fmt::Result {
        let slot = self.slot;
        let sectors = self.sectors;
        let group = self.anchor.guid;
        let revision = RevisionText(self.anchor.revision);
        writeln!(
            f,
            "slot {slot} sectors {sectors} group {group} revision {revision}"
        )
    }
}

impl fmt::Display for PlaceLine<'_> {
    ghost use Rattle.std.specs.Prelude.{Some};
    ghost use Rattle.ddf_text.specs.Report.{place_line};

    ghost output = { λ line. Some (place_line line.sectors line.anchor.now) };

    fn fmt<W: fmt::Write>(&self, f: &mut fmt::Formatter<W>) -> fmt::Result {
        let last = self.sectors.saturating_sub(1);
        let primary = self.anchor.primary_lba;
        let secondary = self.anchor.secondary_lba;
        let workspace = self.anchor.geometry.workspace_lba;
        let length = self.anchor.geometry.workspace_length;
        writeln!(
            f,
            "anchor {last} primary {primary} secondary {secondary} workspace {workspace} length {length}"
        )
    }
}

impl fmt::Display for HeadersLines<'_> {
    ghost use Rattle.std.specs.Prelude.{Some};
    ghost use Rattle.ddf_text.specs.Report.{headers_lines};

    ghost output = { λ lines. Some (headers_lines lines.0.now) };

    fn fmt<W: fmt::Write>(&self, f: &mut fmt::Formatter<W>) -> fmt::Result {
        let primary = HeaderText(&self.0.primary);
        let secondary = HeaderText(&self.0.secondary);
        let closed = closed_word(
            closed_sequence(&self.0.primary),
            closed_sequence(&self.0.secondary),
        );
        writeln!(
            f,
            "primary header {primary}\nsecondary header {secondary}\nclosed {closed}"
        )
    }
}

impl fmt::Display for HeaderText<'_> {
    ghost use Rattle.std.specs.Prelude.{Some};
    ghost use Rattle.ddf_text.specs.Report.{header_text};

    ghost output = { λ text. Some (header_text text.0.now) };

    fn fmt<W: fmt::Write>(&self, f: &mut fmt::Formatter<W>) -> fmt::Result {
        match self.0 {
            HeaderView::Header(header) => {
                let gate = if header.openness == 0 {
                    "closed"
                } else {
                    "open"
                };
                let sequence = header.sequence;
                write!(f, "{gate} sequence {sequence}")
            }
            HeaderView::Room => write!(f, "room"),
            HeaderView::Fault(fault) => write!(f, "{}", Reason(fault)),
        }
    }
}

impl fmt::Display for CopyLines<'_> {
    ghost use Rattle.std.specs.Prelude.{Some};
    ghost use Rattle.ddf_text.specs.CopyText.{copy_lines};

    ghost output = { λ lines. Some (copy_lines lines.0.now) };

    #[tactic(auto, unfolding(crate::specs::CopyText::copy_lines))]
    fn fmt<W: fmt::Write>(&self, f: &mut fmt::Formatter<W>) -> fmt::Result {
        let primary = CopyLine {
            which: "primary",
            copy: &self.0.primary,
        };
        let secondary = CopyLine {
            which: "secondary",
            copy: &self.0.secondary,
        };
        write!(f, "{primary}{secondary}")
    }
}

impl fmt::Display for CopyLine<'_> {
    ghost use Rattle.std.specs.Prelude.{Some};
    ghost use Rattle.ddf_text.specs.CopyText.{copy_line};

    ghost output = { λ line. Some (copy_line line.which.now line.copy.now) };

    fn fmt<W: fmt::Write>(&self, f: &mut fmt::Formatter<W>) -> fmt::Result {
        let which = self.which;
        match self.copy {
            Ok(_) => writeln!(f, "{which} copy whole"),
            Err(fault) => writeln!(f, "{which} copy {}", CopyReason(fault)),
        }
    }
}

impl fmt::Display for RevisionText {
    ghost use Rattle.std.specs.Prelude.{Some};
    ghost use Rattle.ddf_header.specs.Layout.{revision_text};

    ghost output = { λ text. Some (revision_text text.0) };

    fn fmt<W: fmt::Write>(&self, f: &mut fmt::Formatter<W>) -> fmt::Result {
        match self.0 {
            Revision::R100 => write!(f, "01.00.00"),
            Revision::R120 => write!(f, "01.02.00"),
            Revision::R200 => write!(f, "02.00.00"),
        }
    }
}

/// The sequence of a header whose gate is closed.
fn closed_sequence(view: &HeaderView) -> Option<u32>
    ensures { result ≡ closed_sequence view.now }
{
    match view {
        HeaderView::Header(header) if header.openness == 0 => Some(header.sequence),
        _ => None,
    }
}

/// Which of two closed headers counts: the one of the greater sequence.
fn closed_word(primary: Option<u32>, secondary: Option<u32>) -> &'static str
    ensures { result.now ≡ closed_text primary secondary }
{
    match (primary, secondary) {
        (None, None) => "none",
        (Some(_), None) => "primary",
        (None, Some(_)) => "secondary",
        (Some(primary), Some(secondary)) if primary == secondary => "both",
        (Some(primary), Some(secondary)) if primary > secondary => "primary",
        (Some(_), Some(_)) => "secondary",
    }
}
