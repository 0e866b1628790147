//! Which bytes a crash takes from a disk in memory: its contract allows that it takes none.
use crate::assert_same::same;
use dsn_fakes::MemoryDisk;
use dsn_journal::Disk;
use std::alloc::Global;
use std::test::Fail;

/// Writes two bytes to a file of four zeros, from the second on, and syncs them or not.
fn written(alloc: Global, synced: bool) -> Result<MemoryDisk, Fail> {
    let mut disk = MemoryDisk::new(alloc, vec![in alloc; 0; 4]?);
    if disk.size() != 4 {
        return Err(Fail::from("not four bytes"));
    }
    disk.write_at(1, &[8, 9])?;
    if synced {
        disk.sync()?;
    }
    Ok(disk)
}

/// What a crash leaves at a moment, with some bytes lost.
fn crashed(disk: &MemoryDisk, moment: usize, lost: u64) -> Result<Vec<u8>, Fail> {
    if moment > disk.moment() {
        return Err(Fail::from("no such moment"));
    }
    Ok(disk.crashed(moment, lost)?)
}

#[test]
fn a_crash_tears_what_is_not_synced(rt: HostRuntime) -> Result<(), Fail> {
    for (synced, moment, lost, wanted) in [
        (false, 1, 0, [0, 8, 9, 0]),
        (false, 1, 0b010, [0, 0, 9, 0]),
        (false, 1, 0b100, [0, 8, 0, 0]),
        (false, 1, 0b110, [0, 0, 0, 0]),
        (false, 1, u64::MAX, [0, 0, 0, 0]),
        (false, 0, 0, [0, 0, 0, 0]),
        (true, 2, u64::MAX, [0, 8, 9, 0]),
    ] {
        let left = crashed(&written(rt.alloc(), synced)?, moment, lost)?;
        same(&rt, left.as_slice(), wanted.as_slice());
    }
    Ok(())
}
