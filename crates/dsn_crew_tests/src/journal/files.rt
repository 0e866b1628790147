//! A file of the system as a disk: made, opened, written and opened anew. No contract says what a file
//! has.
use crate::assert_same::same;
use dsn_journal::{Disk, FileDisk, create_file};
use std::fs;
use std::test::Fail;

/// A folder of its own, and the file in it.
const FOLDER: &str = "dsn_journal_files";

const PATH: &str = "dsn_journal_files/journal";

/// How many bytes the file has.
const SIZE: usize = 5_000;

/// Makes the file, in place of what an earlier run left.
fn make(rt: &HostRuntime) -> Result<(), Fail> {
    let _ = fs::remove_dir_all(rt, FOLDER);
    fs::create_dir(rt, FOLDER)?;
    Ok(create_file(rt, PATH, SIZE)?)
}

/// Opens the file.
fn open(rt: &HostRuntime) -> Result<FileDisk<'_>, Fail> {
    Ok(FileDisk::open(rt, PATH)?)
}

/// Writes three bytes near the end of a disk, and syncs them.
fn write(disk: &mut FileDisk<'_>) -> Result<(), Fail> {
    if disk.size() != SIZE {
        return Err(Fail::from("another size"));
    }
    disk.write_at(4_990, b"abc")?;
    Ok(disk.sync()?)
}

/// All bytes of a disk, as it reads them.
fn all_of(rt: &HostRuntime, disk: &mut FileDisk<'_>) -> Result<Vec<u8>, Fail> {
    let mut bytes = vec![in rt.alloc(); 7; disk.size()]?;
    disk.read(&mut bytes)?;
    Ok(bytes)
}

// A file isn't made where there is one, and not opened while it is open.
#[test]
fn a_file_keeps_what_was_written(rt: HostRuntime) -> Result<(), Fail> {
    make(&rt)?;
    same(&rt, create_file(&rt, PATH, 10).is_err(), true);
    let mut disk = open(&rt)?;
    same(&rt, FileDisk::open(&rt, PATH).is_err(), true);
    write(&mut disk)?;
    drop(disk);
    let bytes = fs::read(&rt, PATH)?;
    same(&rt, bytes.len(), SIZE);
    let part = bytes.get(4_988..4_995);
    same(&rt, part, Some(b"\0\0abc\0\0".as_slice()));
    same(&rt, all_of(&rt, &mut open(&rt)?)? == bytes, true);
    Ok(fs::remove_dir_all(&rt, FOLDER)?)
}
