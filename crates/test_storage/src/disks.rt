use ov_files::MemoryDisk;
use sqlite_disk::Disk;
use std::alloc::Global;
use std::test::Fail;
use test_basics::is_text;

/// Fails unless a disk has this number of bytes.
fn has_length(alloc: Global, disk: &mut MemoryDisk, want: &str) -> Result<(), Fail> {
    let found = format!(in alloc; "{}", disk.len()?)?;
    is_text(alloc, found.as_str(), want)
}

/// The result of reading four bytes, starting with the third.
fn read(alloc: Global, disk: &mut MemoryDisk) -> Result<String, Fail> {
    let mut read = [0u8; 4];
    match disk.read_at(2, &mut read) {
        Ok(()) => Ok(format!(in alloc; "{read:?}")?),
        Err(_) => Ok(String::from_str(alloc, "refused")?),
    }
}

/// Fails unless that read returns this.
fn reads(alloc: Global, disk: &mut MemoryDisk, want: &str) -> Result<(), Fail> {
    let found = read(alloc, disk)?;
    is_text(alloc, found.as_str(), want)
}

/// Fails unless an empty disk can be written, read and truncated.
fn is_written(alloc: Global, disk: &mut MemoryDisk) -> Result<(), Fail> {
    disk.write_at(3, b"abc")?;
    disk.sync()?;
    has_length(alloc, disk, "6")?;
    reads(alloc, disk, "[0, 97, 98, 99]")?;
    disk.set_len(4)?;
    has_length(alloc, disk, "4")?;
    reads(alloc, disk, "refused")
}

#[test]
fn what_is_written_is_read(rt: HostRuntime) -> Result<(), Fail> {
    is_written(rt.alloc(), &mut MemoryDisk::new(rt.alloc()))
}
