//! The disks of a group's seats, with the copies that stand for them.
ghost use Rattle.std.specs.Prelude.{◌≡◌, filter_map, map, IfOk};
ghost use Rattle.ddf_seats.specs.Seated.{seated_at, seated_by, seats_in, views_in, levelled};

use ddf_bytes::{NoMemory, Seq};
use ddf_config::{Config, Seat};
use ddf_copy::{DiskCopy, Newest, Which};
use ddf_update::Mode;
use ddf_view::View;
use std::alloc::Global;
use std::marker::Model;

/// A disk of a group with its copy.
#[derive(Drop)]
pub struct Seated {
    /// Its seat.
    pub seat: Seat,
    /// The copy.
    pub copy: DiskCopy,
    /// Which of its two copies an update writes last.
    pub last: Which,
    /// How an update writes them.
    pub mode: Mode,
}

impl Seated {
    ghost use Rattle.std.specs.Prelude.{◌≡◌};
    ghost use Rattle.ddf_seats.specs.Seated.{is_adopted};

    /// Whether it showed another group.
    pub fn is_adopted(&self) -> bool
        ensures { result ≡ is_adopted self.now }
    {
        matches!(self.mode, Mode::Found | Mode::Adopt | Mode::Move)
    }
}

/// What a step leaves once it was written: its configuration, and each disk of it with its copy.
#[derive(Drop)]
pub struct Written {
    /// The configuration.
    pub config: Config,
    /// The seats of the disks.
    pub seats: Seq<Seat>,
    /// The disks, each of which has its copy in both places.
    pub disks: Vec<Seated>,
}

/// The same where the copy stands elsewhere, before an update.
#[derive(Drop)]
pub struct Disk<'a> {
    /// Its seat.
    pub seat: Seat,
    /// The copy.
    pub copy: &'a DiskCopy,
    /// Which of its two copies an update writes last.
    pub last: Which,
}

impl<'a> Model for Disk<'a> {
    ghost use Rattle.ddf_update.specs.declared.prepared.Mode.TheVariants.{Change};
    ghost use Rattle.ddf_seats.specs.declared.seated.Seated.{Seated};

    ghost Value = { Seated };

    ghost view = { λ disk. record {
      seat = disk.seat;
      copy = disk.copy.now;
      last = disk.last;
      mode = Change;
    } };
}

impl<'a> Disk<'a> {
    ghost use Rattle.std.specs.Prelude.{◌≡◌};

    /// An equal disk.
    pub fn again(&self) -> Disk<'a>
        ensures { result ≡ self.now }
    {
        Disk {
            seat: self.seat,
            copy: self.copy,
            last: self.last,
        }
    }
}

/// Equal disks.
pub fn all_again<'a>(alloc: Global, disks: &[Disk<'a>]) -> Result<Vec<Disk<'a>>, NoMemory>
    ensures { IfOk result (λ all. all.items ≡ disks.now) }
{
    let mut all = Vec::with_capacity(alloc, disks.len())?;
    for disk in disks {
        all.push(disk.again())?;
    }
    Ok(all)
}

fn seated_by<'a>(seat: Seat, newest: &'a Newest) -> Option<Disk<'a>>
    ensures { result ≡ seated_by seat newest.now }
{
    match newest.copy() {
        Some(copy) => Some(Disk {
            seat,
            copy,
            last: newest.last(),
        }),
        None => None,
    }
}

fn seated_at<'a>(newest: &'a [Option<Newest>], seat: Seat) -> Option<Disk<'a>>
    ensures { result ≡ seated_at newest.now seat }
{
    match newest.get(seat.slot) {
        Some(Some(newest)) => seated_by(seat, newest),
        Some(None) | None => None,
    }
}

/// The disks of these seats, by the newest copies of the slots.
pub fn seated_disks<'a>(
    alloc: Global,
    newest: &'a [Option<Newest>],
    seats: &[Seat],
) -> Result<Vec<Disk<'a>>, NoMemory>
    ensures { IfOk result (λ disks. disks.items ≡ filter_map (seated_at newest.now) seats.now) }
{
    let disks = seats
        .iter()
        .filter_map(|seat| seated_at(newest, *seat))
        .collect(alloc)?;
    Ok(disks)
}

/// A disk once it was written.
pub fn levelled(disk: &Seated) -> Disk<'_>
    ensures { result ≡ levelled disk.now }
{
    Disk {
        seat: disk.seat,
        copy: &disk.copy,
        last: Which::Secondary,
    }
}

/// The disks once they were written.
pub fn all_levelled(alloc: Global, disks: &[Seated]) -> Result<Vec<Disk<'_>>, NoMemory>
    ensures { IfOk result (λ all. all.items ≡ map levelled disks.now) }
{
    let mut all = Vec::with_capacity(alloc, disks.len())?;
    for disk in disks {
        all.push(levelled(disk))?;
    }
    Ok(all)
}

/// The seats of the disks.
pub fn seats_in(alloc: Global, disks: &[Disk]) -> Result<Vec<Seat>, NoMemory>
    ensures { IfOk result (λ seats. seats.items ≡ seats_in disks.now) }
{
    let seats = disks.iter().map(|disk| disk.seat).collect(alloc)?;
    Ok(seats)
}

/// What the copies of the disks say.
pub fn views_in<'a>(alloc: Global, disks: &[Disk<'a>]) -> Result<Vec<View<'a>>, NoMemory>
    ensures { IfOk result (λ views. views.items ≡ views_in disks.now) }
{
    let views = disks
        .iter()
        .map(|disk| View::new(disk.copy))
        .collect(alloc)?;
    Ok(views)
}
