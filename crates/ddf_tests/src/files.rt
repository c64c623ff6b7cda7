//! Files as disks, and a caller that puts writes in order.
ghost use Rattle.std.specs.Prelude.{◌≡◌, ◌⊎◌, ◌+◌, ◌<◌, length, slice_index};
ghost use Rattle.ddf_bay.specs.Moments.{StopsLeave};

use ddf_bay::{Bay, BayFailed, DiskFault, FileBay};
use ddf_bytes::Sector;
use std::io::ErrorKind;
use std::test::Fail;
use std::{fs, io};

const PATH: &str = "ddf_files.img";

const MISSING: &str = "ddf_files_missing.img";

/// Writes two sectors, and then a third that tells of them. A stop at any moment leaves the third as it might be left
/// before, or the first two are there.
fn tell<B: Bay>(
    bay: &mut B,
    slot: usize,
    first: &Sector,
    second: &Sector,
    third: &Sector,
) -> Result<(), BayFailed>
    requires slot { slot < length (B.disks bay.old).sizes }
    requires three { 2 < slice_index (B.disks bay.old).sizes slot }
    ensures sizes { (B.disks bay.new).sizes ≡ (B.disks bay.old).sizes }
    ensures any_moment { B.tells → StopsLeave (B.disks bay.old) (B.disks bay.new)
        (λ image. (B.disks bay.old).may_hold slot 2 (image slot 2) ⊎ ((image slot 0 ≡ first.now) × (image slot 1 ≡ second.now))) }
{
    bay.write(slot, 0, first)?;
    bay.write(slot, 1, second)?;
    bay.sync(slot)?;
    bay.write(slot, 2, third)?;
    bay.sync(slot)
}

/// Fills two sectors in one run.
fn put_two<B: Bay>(bay: &mut B, slot: usize, lba: u64, bytes: [u8; 2]) -> bool
    requires slot { slot < length (B.disks bay.old).sizes }
    requires sectors { lba + 1 < slice_index (B.disks bay.old).sizes slot }
    ensures { (B.disks bay.new).sizes ≡ (B.disks bay.old).sizes }
{
    let [first, second] = bytes;
    bay.write_run(slot, lba, &[[first; 512], [second; 512]])
        .is_ok()
}

/// The first bytes of two sectors, read in one run.
fn get_two<B: Bay>(bay: &mut B, slot: usize, lba: u64) -> [u8; 2]
    requires slot { slot < length (B.disks bay.old).sizes }
    requires sectors { lba + 1 < slice_index (B.disks bay.old).sizes slot }
    ensures { (B.disks bay.new).sizes ≡ (B.disks bay.old).sizes }
{
    let mut sectors = [[0; 512]; 2];
    match bay.read_run(slot, lba, &mut sectors) {
        Ok(()) => [sectors[0][0], sectors[1][0]],
        Err(BayFailed) => [255; 2],
    }
}

fn sync<B: Bay>(bay: &mut B, slot: usize) -> bool
    requires { slot < length (B.disks bay.old).sizes }
    ensures { (B.disks bay.new).sizes ≡ (B.disks bay.old).sizes }
{
    bay.sync(slot).is_ok()
}

#[test]
fn a_file_is_a_disk(rt: HostRuntime) -> Result<(), Fail> {
    let alloc = rt.alloc();
    let path = "ddf_bay_test.img";
    fs::write(&rt, path, [9u8; 5 * 512 + 100].as_slice())?;
    let paths = [
        String::from_str(alloc, path)?,
        String::from_str(alloc, MISSING)?,
    ];
    let Ok(mut bay) = FileBay::open(&rt, alloc, &paths) else {
        return Err(Fail::from("no memory"));
    };
    assert!(rt; bay.slots() == 2);
    assert!(rt; bay.size(0) == 5);
    assert!(rt; bay.fault(0).is_none() && bay.fault(1).is_some() && bay.size(1) == 0);
    assert!(rt; !sync(&mut bay, 1) && !fs::exists(&rt, MISSING)?);
    assert!(rt; tell(&mut bay, 0, &[1; 512], &[2; 512], &[3; 512]).is_ok());
    assert!(rt; put_two(&mut bay, 0, 3, [4, 5]));
    assert!(rt; get_two(&mut bay, 0, 1) == [2, 3] && get_two(&mut bay, 0, 3) == [4, 5]);
    let bytes = fs::read(&rt, path)?;
    assert!(rt; bytes.len() == 5 * 512 + 100);
    assert!(rt; bytes.starts_with(&[1; 512]) && bytes.ends_with(&[9; 100]));
    fs::remove_file(&rt, path)?;
    assert!(rt; DiskFault(1).to_string(alloc)?.as_str() == "disk 1 failed");
    Ok(())
}

#[test]
fn disks_that_are_read_are_not_written(rt: HostRuntime) -> Result<(), Fail> {
    let alloc = rt.alloc();
    fs::write(&rt, PATH, [9u8; 1100].as_slice())?;
    let paths = [
        String::from_str(alloc, PATH)?,
        String::from_str(alloc, MISSING)?,
    ];
    let Ok(mut bay) = FileBay::open_to_read(&rt, alloc, &paths) else {
        return Err(Fail::from("no memory"));
    };
    assert!(rt; bay.slots() == 2);
    assert!(rt; bay.size(0) == 2 && bay.fault(0).is_none());
    let mut sector = [0; 512];
    assert!(rt; bay.read(0, 1, &mut sector) == Ok(()) && sector == [9; 512]);
    assert!(rt; bay.write(0, 1, &[7; 512]) == Err(BayFailed));
    assert!(rt; bay.sync(0) == Ok(()));
    assert!(rt; bay.sync(1) == Err(BayFailed));
    assert!(rt;
        bay.fault(1)
            .is_some_and(|why| why.kind() == ErrorKind::NotFound)
    );
    bay.close(0, io::Error::from(ErrorKind::ResourceBusy));
    assert!(rt; bay.slots() == 2);
    assert!(rt; bay.sync(0) == Err(BayFailed));
    assert!(rt;
        bay.fault(0)
            .is_some_and(|why| why.kind() == ErrorKind::ResourceBusy)
    );
    assert!(rt; fs::read(&rt, PATH)?.as_slice() == [9; 1100].as_slice());
    assert!(rt; !fs::exists(&rt, MISSING)?);
    fs::remove_file(&rt, PATH)?;
    Ok(())
}
