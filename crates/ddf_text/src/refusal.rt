//! The line of a refusal on standard output. Scripts read it, so it stays to the letter. docs/REFUSALS.md
ghost use Rattle.std.specs.Prelude.{◌≡◌};
ghost use Rattle.ddf_text.specs.Refusal.{table_word};

use crate::level::level_name;
use ddf_bytes::Hex8;
use ddf_config::{FullTable, Refusal};
use std::fmt;

/// Why a command isn't done, as the line that is printed, without its end.
#[derive(Drop)]
pub struct RefusalText(pub Refusal);

impl fmt::Display for RefusalText {
    ghost use Rattle.std.specs.Prelude.{Some};
    ghost use Rattle.ddf_text.specs.Refusal.{refusal_text};

    ghost output = { λ text. Some (refusal_text text.0) };

    fn fmt<W: fmt::Write>(&self, f: &mut fmt::Formatter<W>) -> fmt::Result {
        match self.0 {
            Refusal::Words(place) => write!(f, "refused 10 word {place}"),
            Refusal::NotBlank(slot) => write!(f, "refused 11 slot {slot} not blank"),
            Refusal::NoGroup => write!(f, "refused 12 no group"),
            Refusal::SeveralGroups(first, second) => write!(
                f,
                "refused 13 groups at slots {first} {second}"
            ),
            Refusal::NoSlot(slot) => write!(f, "refused 14 no slot {slot}"),
            Refusal::NotMember(slot) => write!(f, "refused 15 slot {slot} not a member"),
            Refusal::NoArray => write!(f, "refused 16 no array"),
            Refusal::NameTaken => write!(f, "refused 17 name taken"),
            Refusal::Level(level) => {
                let name = level_name(level);
                write!(f, "refused 18 level {} {name}", Hex8(level))
            }
            Refusal::Shape => write!(f, "refused 19 shape"),
            Refusal::NoExtent(slot) => write!(f, "refused 20 no extent on slot {slot}"),
            Refusal::Full(table) => write!(f, "refused 21 full {}", table_word(table)),
            Refusal::Lost => write!(f, "refused 22 lost"),
            Refusal::Unsure => write!(f, "refused 23 unsure"),
            Refusal::Marked => write!(f, "refused 24 marked"),
            Refusal::Degraded => write!(f, "refused 25 degraded"),
            Refusal::Range(capacity) => write!(f, "refused 26 range {capacity}"),
            Refusal::NoSpare => write!(f, "refused 27 no spare"),
            Refusal::Small { needed, found } => write!(f, "refused 28 small {needed} {found}"),
            Refusal::Geometry => write!(f, "refused 29 geometry"),
            Refusal::SequenceSpent => write!(f, "refused 30 sequence spent"),
            Refusal::BadBlocks(slot) => write!(f, "refused 31 bad blocks on slot {slot}"),
            Refusal::ShortPayload(found) => write!(f, "refused 32 short payload {found}"),
            Refusal::InUse(slot) => write!(f, "refused 33 slot {slot} in use"),
            Refusal::Clash(guid) => write!(f, "refused 34 clash {guid}"),
            Refusal::Held => write!(f, "refused 35 held"),
            Refusal::NoStage(slot) => write!(f, "refused 37 no stage on slot {slot}"),
            Refusal::NoStandIn => write!(f, "refused 38 no stand-in"),
            Refusal::Unsettled => write!(f, "refused 39 unsettled"),
        }
    }
}

/// The table with too little room, in one word.
fn table_word(table: FullTable) -> &'static str
    ensures { result.now ≡ table_word table }
{
    match table {
        FullTable::Disks => "disks",
        FullTable::Arrays => "arrays",
        FullTable::Records => "records",
        FullTable::Notes => "notes",
        FullTable::Spares => "spares",
    }
}
