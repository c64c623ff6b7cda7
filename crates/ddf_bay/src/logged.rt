//! What a good sync and a stop make of the logged writes of a bay in memory.
ghost use Rattle.std.specs.Prelude.{◌≡◌, ◌≤◌, ◌∷◌, List, filter, is_some, vec_len, vec_capacity};
ghost use Rattle.ddf_bay.specs.Logged.{settled, settled_one, made_sure, marked, survivors};

use crate::logged_write::LoggedWrite;

fn settle_one(entry: &mut LoggedWrite, slot: usize, now: u64)
    ensures { entry.new ≡ settled_one slot now entry.old }
{
    if entry.slot == slot && entry.settled.is_none() {
        entry.settled = Some(now);
    }
}

fn settle(logged: &mut [LoggedWrite], slot: usize, now: u64)
    ensures { logged.new ≡ settled slot now logged.old }
{
    for write in logged.iter_mut() {
        settle_one(write, slot, now);
    }
}

/// What a good sync of a slot makes of the logged writes.
pub(crate) fn settle_all(logged: &mut Vec<LoggedWrite>, slot: usize, now: u64)
    ensures items { logged.new.items ≡ settled slot now logged.old.items }
    ensures len { vec_len logged.new ≡ vec_len logged.old }
    ensures capacity { vec_capacity logged.new ≡ vec_capacity logged.old }
{
    settle(logged, slot, now);
}

fn make_sure(entry: &mut LoggedWrite, now: u64)
    ensures { entry.new ≡ made_sure now entry.old }
{
    entry.settled = Some(now);
}

/// Makes a pending write sure if the first place says so, and answers the places that are left.
fn mark_one<'a>(entry: &mut LoggedWrite, now: u64, places: &'a [bool]) -> &'a [bool]
    ensures { (behind : List _) → marked now places.now (entry.old ∷ behind) ≡ entry.new ∷ marked now result.now behind }
{
    if entry.settled.is_some() {
        return places;
    }
    match places {
        [] => places,
        [kept, after @ ..] => {
            if *kept {
                make_sure(entry, now);
            }
            after
        }
    }
}

fn mark(logged: &mut [LoggedWrite], now: u64, keep: &[bool])
    ensures { logged.new ≡ marked now keep.now logged.old }
{
    let mut rest = keep;
    for write in logged.iter_mut() {
        rest = mark_one(write, now, rest);
    }
}

fn mark_all(logged: &mut Vec<LoggedWrite>, now: u64, keep: &[bool])
    ensures items { logged.new.items ≡ marked now keep.now logged.old.items }
    ensures len { vec_len logged.new ≡ vec_len logged.old }
    ensures capacity { vec_capacity logged.new ≡ vec_capacity logged.old }
{
    mark(logged, now, keep);
}

fn retain_sure(logged: &mut Vec<LoggedWrite>)
    ensures items { logged.new.items ≡ filter (λ r. is_some r.settled) logged.old.items }
    ensures len { vec_len logged.new ≤ vec_len logged.old }
    ensures capacity { vec_capacity logged.new ≡ vec_capacity logged.old }
{
    logged.retain(|write| write.settled.is_some());
}

/// What a stop makes of the logged writes.
pub(crate) fn keep_some(logged: &mut Vec<LoggedWrite>, now: u64, keep: &[bool])
    ensures items { logged.new.items ≡ survivors now keep.now logged.old.items }
    ensures len { vec_len logged.new ≤ vec_len logged.old }
    ensures capacity { vec_capacity logged.new ≡ vec_capacity logged.old }
{
    mark_all(logged, now, keep);
    retain_sure(logged);
}
