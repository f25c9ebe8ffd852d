//! A file of the system, once.

use mp_files::FileDisk;
use mp_outside::{Disk, Failed, read_exactly};
use std::fs;
use std::test::Fail;

fn write_and_read(disk: &mut FileDisk) -> Result<[u8; 4], Failed> {
    disk.cut(0)?;
    disk.write_at(0, b"abcdef")?;
    disk.write_at(2, b"--")?;
    disk.cut(5)?;
    disk.sync()?;
    let mut bytes = [0; 4];
    read_exactly(disk, 1, &mut bytes)?;
    Ok(bytes)
}

#[test]
fn a_file_of_the_system(rt: HostRuntime) -> Result<(), Fail> {
    let Ok(mut disk) = FileDisk::open(rt, "disk.tmp") else {
        return Err(Fail::new("not opened"));
    };
    assert_eq!(rt; write_and_read(&mut disk), Ok(*b"b--e"));
    assert_eq!(rt; disk.length(), Ok(5));
    assert_eq!(rt; disk.read(5, &mut [0; 3]), Ok(0));
    assert!(rt; read_exactly(&mut disk, 3, &mut [0; 3]).is_err());
    fs::remove_file(&rt, "disk.tmp")?;
    Ok(())
}
