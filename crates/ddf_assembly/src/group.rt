//! A group as it was assembled: its configuration, its seats, and the newest copy of each slot, from which the sectors of the next step are
//! made. A member without a seat is absent, and a change leaves it out for good.
ghost use Rattle.std.specs.Prelude.{◌≡◌, ◌<◌, [], fold, Some, if◌then◌else◌};
ghost use Rattle.ddf_seats.specs.Seated.{with_level};
ghost use Rattle.ddf_seats.specs.Leading.{some};

use ddf_bytes::Seq;
use ddf_config::{Config, Seat};
use ddf_copy::Newest;
use ddf_seats::{Seated, Written, copy_at};
use std::marker::Model;

/// A group of disks, with its configuration, and the newest copy of each slot of the bay that it was assembled from.
#[derive(Drop)]
pub struct Group {
    pub(crate) config: Config,
    pub(crate) seats: Seq<Seat>,
    pub(crate) absent: Vec<u32>,
    pub(crate) lagging: Vec<usize>,
    pub(crate) newest: Vec<Option<Newest>>,
}

impl Model for Group {
    ghost use Rattle.ddf_seats.specs.Group.{GroupValue};

    ghost Value = { GroupValue };

    ghost view = { λ group. record {
      config = group.config;
      seats = group.seats;
      absent = group.absent.items;
      lagging = group.lagging.items;
      newest = group.newest.items;
    } };
}

impl Group {
    ghost use Rattle.std.specs.Prelude.{◌≡◌, [], fold, if◌then◌else◌};
    ghost use Rattle.ddf_seats.specs.Group.{is_kept};
    ghost use Rattle.ddf_seats.specs.Leading.{some};
    ghost use Rattle.ddf_seats.specs.Seated.{with_level};

    /// The configuration, as its newest disks record it.
    pub fn config(&self) -> &Config
        ensures { result.now ≡ self.now.config }
    {
        &self.config
    }

    /// The seats of its current members, in the order of their slots.
    pub fn seats(&self) -> &[Seat]
        ensures { result.now ≡ self.now.seats }
    {
        self.seats.items()
    }

    /// The references of the current members that no slot is, in table order.
    pub fn absent(&self) -> &[u32]
        ensures { result.now ≡ self.now.absent }
    {
        self.absent.as_slice()
    }

    /// The slots of current members that don't hold the configuration in two level copies, in rising order.
    pub fn lagging(&self) -> &[usize]
        ensures { result.now ≡ self.now.lagging }
    {
        self.lagging.as_slice()
    }

    /// Whether the group keeps a newest copy of a slot.
    pub fn kept(&self, slot: usize) -> bool
        ensures { result ≡ is_kept self.now.newest slot }
    {
        copy_at(self.newest.as_slice(), slot).is_some()
    }

    /// The newest copy of each slot of the bay.
    pub fn newest(&self) -> &[Option<Newest>]
        ensures { result.now ≡ self.now.newest }
    {
        self.newest.as_slice()
    }

    /// Makes the group what it is once a step was written.
    pub fn advance(&mut self, written: Written)
        ensures { self.new ≡ record self.old { config = written.config; seats = written.seats; newest = fold with_level self.old.newest written.disks.items } }
    {
        self.config = written.config;
        self.seats = written.seats;
        level_all(&mut self.newest, written.disks);
    }

    /// Makes the group what it is once it was recovered: nothing is absent, and nothing lags. Behind a loss its seats are those of the
    /// disks that were written.
    pub fn settle(&mut self, written: Written)
        ensures { self.new ≡ record {
          config = written.config;
          seats = if some self.old.absent then written.seats else self.old.seats;
          absent = [];
          lagging = [];
          newest = fold with_level self.old.newest written.disks.items;
        } }
    {
        self.settle_seats(written.seats);
        self.config = written.config;
        level_all(&mut self.newest, written.disks);
        self.absent.clear();
        self.lagging.clear();
    }

    /// Behind a loss the seats are those that are left.
    fn settle_seats(&mut self, seats: Seq<Seat>)
        ensures { self.new ≡ record self.old { seats = if some self.old.absent then seats else self.old.seats } }
    {
        if !self.absent.is_empty() {
            self.seats = seats;
        }
    }
}

/// The newest copies of the slots once these disks have their copies in both places.
fn level_all(newest: &mut Vec<Option<Newest>>, disks: Vec<Seated>)
    ensures { newest.new.items ≡ fold with_level newest.old.items disks.items }
{
    for disk in disks {
        level_one(newest, disk);
    }
}

fn level_one(newest: &mut Vec<Option<Newest>>, disk: Seated)
    ensures { newest.new.items ≡ with_level newest.old.items disk }
{
    if let Some(one) = newest.get_mut(disk.seat.slot) {
        *one = Some(Newest::Level(disk.copy));
    }
}
