//! What crashes leave, what failing disks answer, and how a sync is held.

use crate::same::{given, holds, same, same_at};
use std::alloc::Global;
use std::fs;
use std::process::Abort;
use std::test::Fail;
use swim_disk::{Choice, Disk, DiskFault, FaultDisk, FileDisk, MOST_BYTES, MemDisk, Plan};

/// The bytes 1 to 4, synced, and then a write of 8 and 9 at offset 3.
fn written(alloc: Global) -> Result<MemDisk, Fail> {
    let mut disk = MemDisk::new(alloc, 1, Vec::new(alloc));
    disk.write_at(0, &[1, 2, 3, 4])?;
    disk.sync()?;
    disk.write_at(3, &[8, 9])?;
    Ok(disk)
}

#[test]
fn crash_leaves_what_was_chosen(rt: HostRuntime) -> Result<(), Fail> {
    for (choice, want) in [
        (Choice::Keep, [1, 2, 3, 8, 9].as_slice()),
        (Choice::Drop, [1, 2, 3, 4].as_slice()),
        (Choice::Fill(0xa5), [1, 2, 3, 0xa5, 0xa5].as_slice()),
    ] {
        let left = written(rt.alloc())?.crash(choice);
        same_at(&rt, &choice, left.bytes()?.as_slice(), want);
    }
    Ok(())
}

#[test]
fn memory_ends(rt: HostRuntime) -> Result<(), Fail> {
    let mut disk = written(rt.alloc())?;
    for (at, want) in [
        (3, Ok(())),
        (4, Err(DiskFault::PastEnd)),
        (u64::MAX, Err(DiskFault::PastEnd)),
    ] {
        same_at(&rt, &at, disk.read_at(at, &mut [0; 2]), want);
    }
    for (at, want) in [
        (MOST_BYTES - 1, Ok(())),
        (MOST_BYTES, Err(DiskFault::NoRoom)),
        (u64::MAX, Err(DiskFault::NoRoom)),
    ] {
        same_at(&rt, &at, disk.write_at(at, &[1]), want);
    }
    Ok(())
}

/// A byte at each place of a disk, written one by one and then in one piece, reads as it was written last.
#[test]
fn later_writes_hide_earlier_ones(rt: HostRuntime) -> Result<(), Fail> {
    let mut disk = written(rt.alloc())?;
    for at in 0..5_u8 {
        given(&rt, disk.write_at(u64::from(at), &[at]));
        given(&rt, disk.sync());
    }
    same(&rt, disk.bytes()?.as_slice(), [0, 1, 2, 3, 4].as_slice());
    given(&rt, disk.write_at(1, &[7, 7, 7]));
    given(&rt, disk.sync());
    given(&rt, disk.write_at(8, &[9]));
    same(
        &rt,
        disk.bytes()?.as_slice(),
        [0, 7, 7, 7, 4, 0, 0, 0, 9].as_slice(),
    );
    same(
        &rt,
        disk.crash(Choice::Drop).bytes()?.as_slice(),
        [0, 7, 7, 7, 4].as_slice(),
    );
    Ok(())
}

/// Bytes that are put under a disk stand after each crash, and what was written beside them is as it was.
#[test]
fn overwritten_bytes_stand(rt: HostRuntime) -> Result<(), Fail> {
    for (choice, want) in [
        (Choice::Keep, [1, 2, 3, 7, 9].as_slice()),
        (Choice::Drop, [1, 2, 3, 7].as_slice()),
        (Choice::Fill(0xa5), [1, 2, 3, 7, 0xa5].as_slice()),
    ] {
        let disk = written(rt.alloc())?.overwritten(3, &[7])?;
        same_at(&rt, &choice, disk.crash(choice).bytes()?.as_slice(), want);
    }
    Ok(())
}

fn planned(rt: &impl Abort, alloc: Global) -> (FaultDisk<MemDisk>, Plan) {
    FaultDisk::new(alloc, MemDisk::new(alloc, 1, Vec::new(alloc)))
        .ok()
        .expect(rt, "memory")
}

/// Which calls fail of a length, a write of three bytes, a read and a sync, in this order and twice: 1 is one that does.
fn failing(disk: &mut FaultDisk<MemDisk>) -> [u8; 8] {
    let mut fails = [0; 8];
    for round in 0..2_usize {
        let at = 4 * round;
        fails[at] = u8::from(disk.len().is_err());
        fails[at + 1] = u8::from(disk.write_at(0, &[1, 2, 3]).is_err());
        fails[at + 2] = u8::from(disk.read_at(0, &mut [0; 1]).is_err());
        fails[at + 3] = u8::from(disk.sync().is_err());
    }
    fails
}

/// Sets one thing that goes wrong at a call to come.
type Trouble = fn(&Plan, u64);

/// A plan counts its calls from where it is set, a length among the reads.
#[test]
fn fails_by_plan(rt: HostRuntime) -> Result<(), Fail> {
    let troubles: [(Trouble, u64, [u8; 8]); 7] = [
        (Plan::fail_read, 1, [1, 0, 0, 0, 0, 0, 0, 0]),
        (Plan::fail_read, 4, [0, 0, 0, 0, 0, 0, 1, 0]),
        (Plan::fail_write, 2, [0, 0, 0, 0, 0, 1, 0, 0]),
        (Plan::tear_write, 2, [0, 0, 0, 0, 0, 1, 0, 0]),
        (Plan::fail_sync, 1, [0, 0, 0, 1, 0, 0, 0, 0]),
        (Plan::halt, 4, [0, 0, 0, 1, 1, 1, 1, 1]),
        (Plan::halt, 0, [0, 0, 0, 0, 0, 0, 0, 0]),
    ];
    for (trouble, k, want) in troubles {
        let (mut disk, plan) = planned(&rt, rt.alloc());
        trouble(&plan, k);
        same_at(&rt, &k, failing(&mut disk), want);
        same(&rt, plan.calls(), 8);
    }
    Ok(())
}

/// Of a torn write the first half is passed on, rounded up.
#[test]
fn tears_in_the_middle(rt: HostRuntime) -> Result<(), Fail> {
    for (count, want) in [(1, 1), (2, 1), (3, 2), (16, 8)] {
        let (mut disk, plan) = planned(&rt, rt.alloc());
        plan.tear_write(1);
        holds(&rt, count <= 16);
        holds(&rt, disk.write_at(0, &[7; 16][..count]).is_err());
        same(&rt, disk.inner().bytes()?.as_slice(), &[7; 16][..want]);
    }
    Ok(())
}

/// A sync that nobody lets go on does so when its turns are over.
#[test]
fn holds_a_sync_for_its_turns(rt: HostRuntime) -> Result<(), Fail> {
    let (mut disk, plan) = planned(&rt, rt.alloc());
    plan.hold_sync();
    given(&rt, disk.sync());
    holds(&rt, !plan.is_held());
    Ok(())
}

#[test]
fn file_reads_back(rt: HostRuntime) -> Result<(), Fail> {
    let _ = fs::remove_file(&rt, "disk");
    let mut disk = given(&rt, FileDisk::create(rt.alloc(), &rt, "disk"));
    given(&rt, disk.write_at(3, &[8, 9]));
    given(&rt, disk.sync());
    let mut again = given(&rt, FileDisk::open(rt.alloc(), &rt, "disk"));
    let mut bytes = [1; 5];
    given(&rt, again.read_at(0, &mut bytes));
    same(&rt, bytes, [0, 0, 0, 8, 9]);
    same(&rt, again.len()?, 5);
    same(&rt, again.read_at(4, &mut bytes), Err(DiskFault::PastEnd));
    given(&rt, fs::remove_file(&rt, "disk"));
    Ok(())
}
