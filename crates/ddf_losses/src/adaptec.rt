//! RAID 5 of Adaptec's controllers, which dmraid reads otherwise than the records say. docs/RESCUE.md#disks-of-controllers
use ddf_arrays_left::lies_on;
use ddf_assembly::Group;
use ddf_bytes::be16;
use ddf_config::Array;
use ddf_copy::Newest;
use ddf_name::NameText;

/// Offset of the PCI vendor in controller data: two bytes, unread.
const VENDOR_AT: usize = 32;

/// Adaptec.
const ADAPTEC: u16 = 0x9005;

/// Names on standard error each RAID 5 array of a group of which the controller data of a disk name PCI vendor 9005.
pub fn name_adaptec<R: Eprint>(rt: &R, group: &Group) {
    for (_, array) in &group.config().arrays {
        if is_raid_5(array) && is_of_adaptec(group, array) {
            tell_adaptec(rt, array);
        }
    }
}

/// Whether an element of an array is a RAID 5.
fn is_raid_5(array: &Array) -> bool {
    array
        .elements
        .items()
        .iter()
        .flatten()
        .any(|element| element.level == 0x05)
}

/// Whether the controller data of a disk of an array name the vendor.
fn is_of_adaptec(group: &Group, array: &Array) -> bool {
    for seat in group.seats() {
        if lies_on(array, &[seat.reference]) && names_adaptec(group.newest(), seat.slot) {
            return true;
        }
    }
    false
}

/// Whether the newest copy of a slot names it.
fn names_adaptec(newest: &[Option<Newest>], slot: usize) -> bool {
    let Some(Some(newest)) = newest.get(slot) else {
        return false;
    };
    match newest.copy() {
        Some(copy) => be16(&copy.controller.rest, VENDOR_AT) == ADAPTEC,
        None => false,
    }
}

fn tell_adaptec<R: Eprint>(rt: &R, array: &Array) {
    let name = NameText(&array.name);
    let _ = eprintln!(rt;
        "ddf: array {name}: its controller is of PCI vendor 9005 (Adaptec), and dmraid reads RAID 5 of these as left-asymmetric, whatever the records say: compare some files before you trust it"
    );
}
