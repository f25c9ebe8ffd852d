//! Calls that fail by their numbers, standard input and output, and what each choice of a crash leaves.

use mp_outside::{Disk, Failed, MemDisk, MemSink, StdSink, StdSource, read_all, write_all};
use std::test::Fail;

#[test]
fn a_sink_in_memory_fails_by_numbers_and_fills_up(rt: HostRuntime) -> Result<(), Fail> {
    let table = [
        (9, [].as_slice(), Ok(()), b"hello".as_slice()),
        (5, [].as_slice(), Ok(()), b"hello".as_slice()),
        (4, [].as_slice(), Err(Failed), b"hell".as_slice()),
        (9, [1].as_slice(), Err(Failed), b"".as_slice()),
        (9, [2].as_slice(), Ok(()), b"hello".as_slice()),
    ];
    for (room, fail, written, bytes) in table {
        let mut sink = MemSink::new(rt.alloc(), room, fail)?;
        assert_eq!(rt; write_all(&mut sink, b"hello"), written);
        assert_eq!(rt; sink.written(), bytes);
    }
    Ok(())
}

#[test]
fn standard_input_and_output_answer(rt: HostRuntime) -> Result<(), Fail> {
    let mut source = StdSource::new(rt);
    assert!(rt; read_all(rt.alloc(), &mut source, 4)?.len() <= 4);
    let mut sink = StdSink::new(rt);
    assert_eq!(rt; write_all(&mut sink, b"written\n"), Ok(()));
    Ok(())
}

// A front of two bytes and a back of three, then one that overlaps it and passes the end, then one behind a gap.
#[test]
fn a_crash_leaves_what_its_choice_says(rt: HostRuntime) -> Result<(), Fail> {
    let table = [
        (0, b"abcdefgh".as_slice()),
        (1, b"abWXYZQRS\0\0TU".as_slice()),
        (2, b"abWXefQh\0\0\0T\0".as_slice()),
        (3, b"ab\xa5\xa5\xa5\xa5\xa5\xa5\xa5\0\0\xa5\xa5".as_slice()),
    ];
    for (choice, left) in table {
        let mut disk = MemDisk::new(rt.alloc(), b"abcdefgh", 16, &[])?;
        disk.write_at(2, b"WXYZV")?;
        disk.write_at(6, b"QRS")?;
        disk.write_at(11, b"TU")?;
        assert!(rt; choice < 4);
        disk.crash(choice);
        let mut into = [0; 16];
        let count = disk.read(0, &mut into)?;
        assert_eq!(rt; &into[..count], left);
    }
    Ok(())
}

#[test]
fn a_disk_in_memory_fails_by_numbers_and_room(rt: HostRuntime) -> Result<(), Fail> {
    let mut disk = MemDisk::new(rt.alloc(), b"abc", 4, &[2])?;
    assert_eq!(rt; disk.length(), Ok(3));
    assert_eq!(rt; disk.cut(1), Err(Failed));
    assert_eq!(rt; disk.write_at(3, b"de"), Err(Failed));
    assert_eq!(rt; disk.write_at(3, b"d"), Ok(()));
    assert_eq!(rt; disk.length(), Ok(4));
    Ok(())
}
