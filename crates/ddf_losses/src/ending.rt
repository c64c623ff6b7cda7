//! What `fail` and `delete` put an end to.
use ddf_arrays_left::{group_shown, lies_on, name_arrays_after};
use ddf_assembly::Group;
use ddf_bay::Bay;
use ddf_bytes::{Guid, Hex32, NoMemory};
use ddf_config::{Array, Config, array_capacity, slot_of};
use ddf_edge::OneLine;
use ddf_name::NameText;
use ddf_plan::{Change, PlanFault, apply};
use ddf_recovery::loss;
use ddf_request::named_array;

/// Names on standard error the disk that `fail` takes out of use, and what becomes of the arrays on it. Whether it does.
pub fn name_failing<R, B: Bay>(
    rt: &R,
    bay: &mut B,
    paths: &[String],
    named: Option<Guid>,
    slot: usize,
) -> Result<bool, NoMemory>
where
    R: Eprint + AllocGlobal,
{
    match group_over(rt, bay, named)? {
        Some((group, config)) => name_out_of_use(rt, paths, &group, &config, slot),
        None => Ok(false),
    }
}

/// Names the disk of a slot that goes out of use, and what becomes of the arrays on it. Whether it does.
fn name_out_of_use<R>(
    rt: &R,
    paths: &[String],
    group: &Group,
    config: &Config,
    slot: usize,
) -> Result<bool, NoMemory>
where
    R: Eprint + AllocGlobal,
{
    let Some(seat) = group.seats().iter().find(|seat| seat.slot == slot) else {
        return Ok(false);
    };
    let reference = seat.reference;
    match apply(rt.alloc(), config, &Change::Fail(reference), group.seats()) {
        Ok(after) => {
            tell_out_of_use(rt, paths, slot, reference);
            name_arrays_after(rt, group, config, &after, &[reference])?;
            Ok(true)
        }
        Err(PlanFault::Memory) => Err(NoMemory),
        Err(PlanFault::Refused(_)) => Ok(false),
    }
}

fn tell_out_of_use<R: Eprint>(rt: &R, paths: &[String], slot: usize, reference: u32) {
    if let Some(path) = paths.get(slot) {
        let path = OneLine(path);
        let reference = Hex32(reference);
        let _ = eprintln!(rt;
            "ddf: slot {slot} ({path}), member {reference}, goes out of use for good"
        );
    }
}

/// Names on standard error the array that `delete` takes out of the records, and where it lies. Whether there is one.
pub fn name_deleting<R, B: Bay>(
    rt: &R,
    bay: &mut B,
    named: Option<Guid>,
    word: &[u8],
) -> Result<bool, NoMemory>
where
    R: Eprint + AllocGlobal,
{
    match group_over(rt, bay, named)? {
        Some((group, config)) => name_out_of_records(rt, &group, &config, word),
        None => Ok(false),
    }
}

/// Names the array that goes out of the records, and where it lies. Whether there is one.
fn name_out_of_records<R>(
    rt: &R,
    group: &Group,
    config: &Config,
    word: &[u8],
) -> Result<bool, NoMemory>
where
    R: Eprint + AllocGlobal,
{
    let Some((_, array)) = named_array(&config.arrays, word) else {
        return Ok(false);
    };
    let name = NameText(&array.name);
    let slots = slots_of_array(rt, group, array)?;
    let _ = match array_capacity(rt.alloc(), array) {
        Ok(blocks) => eprintln!(rt;
            "ddf: array {name} ({blocks} blocks, on slots{slots}) goes out of the records: no command finds its blocks again"
        ),
        Err(_) => return Err(NoMemory),
    };
    Ok(true)
}

/// The group that a command is over, and its configuration once absent members are lost.
pub fn group_over<R, B: Bay>(
    rt: &R,
    bay: &mut B,
    named: Option<Guid>,
) -> Result<Option<(Group, Config)>, NoMemory>
where
    R: AllocGlobal,
{
    let Some(group) = group_shown(rt, bay, named)? else {
        return Ok(None);
    };
    let config = match loss(rt.alloc(), &group)? {
        Some(config) => config,
        None => group.config().duplicate(rt.alloc())?,
    };
    Ok(Some((group, config)))
}

/// The slots of the disks on which an array lies, each with a blank before it.
fn slots_of_array<R: AllocGlobal>(
    rt: &R,
    group: &Group,
    array: &Array,
) -> Result<String, NoMemory> {
    let mut slots = String::new(rt.alloc());
    for seat in group.seats() {
        if lies_on(array, &[seat.reference]) {
            let slot = slot_of(group.seats(), seat.reference);
            let text = format!(in rt.alloc(); " {slot}")?;
            slots.push_str(text.as_str())?;
        }
    }
    Ok(slots)
}
