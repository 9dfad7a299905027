// A file that refuses a call is a fault of the disk, one for each call, and never an end or a success.
use base_machine::{JournalFile, Shared, StdDisk};
use base_outside::{Disk, DiskStep, Failed, Renewal};
use std::fs;
use std::fs::{File, OpenOptions};
use std::os::unix::fs::{FileExt, PermissionsExt};
use std::test::Fail;

fn disk(rt: &HostRuntime, name: &str, read: bool, write: bool) -> Result<StdDisk, Fail> {
    let file = OpenOptions::new().read(read).write(write).open(rt, name)?;
    Ok(StdDisk::new(file))
}

fn new_disk(rt: &HostRuntime, name: &str) -> Result<StdDisk, Fail> {
    let file = OpenOptions::new()
        .read(true)
        .write(true)
        .create(true)
        .open(rt, name)?;
    Ok(StdDisk::new(file))
}

// The full device takes no byte, and it refuses a sync.
#[test]
fn a_full_device_fails_each_write_and_sync(rt: HostRuntime) -> Result<(), Fail> {
    let mut full = disk(&rt, "/dev/full", true, true)?;
    assert_eq!(rt; full.write_at(0, b"abc"), Err(Failed));
    assert_eq!(rt; full.fault_count(), 1);
    assert_eq!(rt; full.sync(), Err(Failed));
    assert_eq!(rt; full.fault_count(), 2);
    Ok(())
}

#[test]
fn a_file_of_one_direction_fails_in_the_other(rt: HostRuntime) -> Result<(), Fail> {
    let mut file = new_disk(&rt, "one_direction")?;
    assert_eq!(rt; file.write_at(0, b"abc"), Ok(()));
    let mut written = disk(&rt, "one_direction", false, true)?;
    let mut into = [0u8; 3];
    assert_eq!(rt; written.read(0, &mut into), Err(Failed));
    assert_eq!(rt; written.fault_count(), 1);
    let mut read = disk(&rt, "one_direction", true, false)?;
    assert_eq!(rt; read.write_at(0, b"xyz"), Err(Failed));
    assert_eq!(rt; read.cut(1), Err(Failed));
    assert_eq!(rt; read.fault_count(), 2);
    assert_eq!(rt; read.read(0, &mut into), Ok(3));
    assert_eq!(rt; into, *b"abc");
    Ok(())
}

// Where the largest file ends at 2^44 - 4,096 bytes, only three of the six fit, and the write fails. On a file
// system with larger files all six must be there.
#[test]
fn a_write_that_fits_in_part_is_no_success(rt: HostRuntime) -> Result<(), Fail> {
    let at = 17_592_186_040_317;
    let mut file = new_disk(&rt, "large")?;
    let mut into = [0u8; 6];
    match file.write_at(at, b"abcdef") {
        Ok(()) => {
            assert_eq!(rt; file.read(at, &mut into), Ok(6));
            assert_eq!(rt; into, *b"abcdef");
        }
        Err(Failed) => assert_eq!(rt; file.fault_count(), 1),
    }
    assert_eq!(rt; file.cut(0), Ok(()));
    Ok(())
}

// What was there before goes only when the draft takes its name; a draft that was left is emptied by the next.
#[test]
fn a_draft_takes_the_journals_place(rt: HostRuntime) -> Result<(), Fail> {
    let here = Shared::new(rt.alloc());
    let mut disk = JournalFile::new(&rt, &rt, &here);
    let mut into = [0u8; 4];
    assert_eq!(rt; disk.write_at(0, b"old"), Ok(()));
    assert_eq!(rt; disk.begin_draft(), Ok(DiskStep::Done));
    assert_eq!(rt; disk.put_draft(b"left"), Ok(DiskStep::Done));
    assert_eq!(rt; disk.begin_draft(), Ok(DiskStep::Done));
    assert_eq!(rt; disk.put_draft(b"ne"), Ok(DiskStep::Done));
    assert_eq!(rt; disk.put_draft(b"w!"), Ok(DiskStep::Done));
    assert_eq!(rt; disk.read(0, &mut into), Ok(3));
    assert_eq!(rt; disk.adopt(), Ok(DiskStep::Done));
    assert_eq!(rt; disk.read(0, &mut into), Ok(4));
    assert_eq!(rt; into, *b"new!");
    assert_eq!(rt; disk.write_at(4, b"+"), Ok(()));
    assert_eq!(rt; fs::metadata(&rt, "smb311.journal")?.len(), 5);
    assert_eq!(rt; File::open(&rt, "smb311.draft").is_err(), true);
    assert_eq!(rt; disk.fault_count(), 0);
    Ok(())
}

// A draft that was left is removed by the next server's first call, and one that nobody goes on with by the next write.
#[test]
fn a_draft_that_is_left_is_removed(rt: HostRuntime) -> Result<(), Fail> {
    let shared = Shared::new(rt.alloc());
    let mut first = JournalFile::new(&rt, &rt, &shared);
    assert_eq!(rt; first.begin_draft(), Ok(DiskStep::Done));
    drop(first);
    assert_eq!(rt; fs::exists(&rt, "smb311.draft")?, true);
    let mut second = JournalFile::new(&rt, &rt, &shared);
    assert_eq!(rt; second.write_at(0, b"abc"), Ok(()));
    assert_eq!(rt; fs::exists(&rt, "smb311.draft")?, false);
    assert_eq!(rt; second.begin_draft(), Ok(DiskStep::Done));
    assert_eq!(rt; second.write_at(3, b"def"), Ok(()));
    assert_eq!(rt; fs::exists(&rt, "smb311.draft")?, false);
    assert_eq!(rt; second.length(), Ok(6));
    Ok(())
}

// The second of two has failed and has changed nothing, until the first has gone.
#[test]
fn one_server_has_the_journal(rt: HostRuntime) -> Result<(), Fail> {
    let (here, there) = (Shared::new(rt.alloc()), Shared::new(rt.alloc()));
    let mut first = JournalFile::new(&rt, &rt, &here);
    let mut second = JournalFile::new(&rt, &rt, &there);
    assert_eq!(rt; first.write_at(0, b"abc"), Ok(()));
    assert_eq!(rt; second.cut(0), Err(Failed));
    assert_eq!(rt; second.write_at(0, b"xyz"), Err(Failed));
    assert_eq!(rt; second.fault_count(), 2);
    assert_eq!(rt;
        fs::metadata(&rt, "smb311.journal")?.permissions().mode() % 0o1000,
        0o600
    );
    assert_eq!(rt;
        fs::metadata(&rt, "smb311.lock")?.permissions().mode() % 0o1000,
        0o600
    );
    drop(first);
    let mut into = [0u8; 4];
    assert_eq!(rt; second.read(0, &mut into), Ok(3));
    assert_eq!(rt; into, *b"abc\0");
    assert_eq!(rt; second.cut(0), Ok(()));
    Ok(())
}

// What is cut is kept where it is more than 2 MiB, by the first number that no file has.
#[test]
fn a_long_end_is_kept(rt: HostRuntime) -> Result<(), Fail> {
    let shared = Shared::new(rt.alloc());
    let mut disk = JournalFile::new(&rt, &rt, &shared);
    assert_eq!(rt; disk.write_at(3_000_000, b"end"), Ok(()));
    assert_eq!(rt; disk.cut(2_900_000), Ok(()));
    assert!(rt;
        !fs::exists(&rt, "smb311.cut-1")?,
        "little is cut without a copy"
    );
    assert_eq!(rt; disk.write_at(3_000_000, b"end"), Ok(()));
    assert_eq!(rt; disk.cut(100), Ok(()));
    let kept = File::open(&rt, "smb311.cut-1")?;
    assert_eq!(rt; kept.metadata()?.len(), 2_999_903);
    let mut into = [0u8; 3];
    assert_eq!(rt; kept.read_at(&mut into, 2_999_900)?, 3);
    assert_eq!(rt; into, *b"end");
    assert_eq!(rt; disk.length(), Ok(100));
    assert_eq!(rt; disk.cut(0), Ok(()));
    Ok(())
}
