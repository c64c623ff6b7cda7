//! A change is applied where memory is ample.
use ddf_bytes::{Guid, NoMemory};
use ddf_plan::{Change, Config, Member, SpareUse, apply};
use indexmap::IndexMap;
use std::alloc::Global;
use std::test::Fail;

/// Two disks as a label leaves them, with the references 7 and 8.
fn labelled(alloc: Global) -> Result<Config, NoMemory> {
    let mut members = IndexMap::new(alloc);
    for number in 7u8..9 {
        let member = Member {
            guid: Guid::new([number; 24]),
            size: 32_687,
            missing: false,
            spare: SpareUse::No,
        };
        members.insert(u32::from(number), member)?;
    }
    Ok(Config {
        group: Guid::new([0; 24]),
        sequence: 1,
        members,
        arrays: IndexMap::new(alloc),
    })
}

#[test]
fn a_disk_fails(rt: HostRuntime) -> Result<(), Fail> {
    let alloc = rt.alloc();
    let Ok(before) = labelled(alloc) else {
        return Err(Fail::from("no memory"));
    };
    let Ok(next) = apply(alloc, &before, &Change::Fail(8), &[]) else {
        return Err(Fail::from("no configuration"));
    };
    assert!(rt; next.sequence == 3 && next.members.len() == 2);
    assert!(rt; next.members.get(&7).is_some_and(|member| !member.missing));
    assert!(rt; next.members.get(&8).is_some_and(|member| member.missing));
    Ok(())
}
