//! Stops at device calls of `init`, and at each of `write_page`, `flip_header` and `close_later`, with each choice of a
//! crash, and the places of faults.

ghost use Rattle.std.specs.Prelude.{◌<◌};

use mp_model::Memory;
use mp_outside::{Disk, FuseDisk, MemDisk, read_exactly};
use mp_page::Page;
use mp_store::{Header, Store, StoreRefusal, init};
use std::alloc::Global;
use std::test::Fail;

/// The length of a store file.
const LENGTH: u64 = 8_519_808;

/// The device calls of `init` up to the sync that makes its zeros safe: a cut, 2,017 writes, and the sync.
const CLEARING: u64 = 2019;

/// A disk with a fresh store.
fn fresh(alloc: Global) -> Result<MemDisk, Memory> {
    let mut disk = MemDisk::new(alloc, b"old", LENGTH, &[])?;
    let _ = init(&mut disk);
    Ok(disk)
}

/// The blank page with an LLSN.
fn blank_at(llsn: u64) -> Page {
    let mut page = Page::blank();
    if llsn < 1 << 62 {
        page.set_llsn(llsn);
    }
    page
}

/// The byte at a place, or 0 where it can't be read.
fn byte_of(disk: &mut MemDisk, place: u32) -> u8 {
    let mut byte = [0];
    let _ = read_exactly(disk, u64::from(place), &mut byte);
    byte[0]
}

/// The generation of the store on a disk, or why it isn't one.
fn generation_of(alloc: Global, disk: &mut MemDisk) -> Result<u64, StoreRefusal> {
    match Store::open(alloc, disk) {
        Ok(store) => Ok(store.header().generation),
        Err(unopened) => Err(unopened.refusal),
    }
}

/// What `init` over a disk with an open store leaves, stopped behind so many calls and crashed, and whether it was done.
fn crashed_init(alloc: Global, passes: u64, choice: u8) -> Result<(MemDisk, bool), Memory>
    requires { choice < 4 }
{
    let mut fuse = FuseDisk::new(fresh(alloc)?, passes);
    let done = init(&mut fuse).is_ok();
    let mut disk = fuse.into_disk();
    disk.crash(choice);
    Ok((disk, done))
}

/// Whether the gate of the header is open.
fn is_open(disk: &mut MemDisk) -> bool {
    byte_of(disk, 0) == 165
}

/// Whether the gates of pages 0 and 1 are both open.
fn are_pages_open(disk: &mut MemDisk) -> bool {
    byte_of(disk, 128) == 165 && byte_of(disk, 2208) == 165
}

#[test]
fn an_init_that_clears_an_old_store_leaves_no_header_without_its_pages(
    rt: HostRuntime,
) -> Result<(), Fail> {
    // The writes between the third and the last are alike: zeros, behind pages 0 and 1.
    for passes in [0, 1, 2, 3, 1000, CLEARING - 1] {
        for choice in 0..4 {
            let (mut disk, done) = crashed_init(rt.alloc(), passes, choice)?;
            assert!(rt; !done);
            assert!(rt; !is_open(&mut disk) || are_pages_open(&mut disk));
        }
    }
    Ok(())
}

#[test]
fn a_stopped_init_leaves_no_open_header_or_a_fresh_store(rt: HostRuntime) -> Result<(), Fail> {
    for passes in CLEARING..CLEARING + 10 {
        for choice in 0..4 {
            let (mut disk, done) = crashed_init(rt.alloc(), passes, choice)?;
            assert_eq!(rt; done, CLEARING + 9 <= passes);
            let opened = is_open(&mut disk);
            // The header's gate is opened last, behind those of both pages.
            assert!(rt; !opened || are_pages_open(&mut disk) && CLEARING + 7 < passes);
            let left = generation_of(rt.alloc(), &mut disk);
            let expected = if opened {
                Ok(1)
            } else {
                Err(StoreRefusal::NotStore { place: 0 })
            };
            assert_eq!(rt; left, expected);
        }
    }
    Ok(())
}

/// The device calls of opening a store: a sync, the length, and reads of the header, all homes, and pages 0 and 1 again.
const OPENING: u64 = 4101;

/// Writes a page to the store of a disk, with a generation. It answers whether it is written; then the store is open.
fn write<D: Disk>(alloc: Global, disk: &mut D, page: &Page, generation: u64) -> bool {
    match Store::open(alloc, disk) {
        Ok(mut store) => {
            let done = 1 <= generation && store.write_page(5, page, generation).is_ok();
            done && store.is_open()
        }
        Err(_) => false,
    }
}

#[test]
fn a_stopped_write_leaves_the_old_page_or_the_new_one(rt: HostRuntime) -> Result<(), Fail> {
    let mut disk = fresh(rt.alloc())?;
    let mut llsn = 0u64;
    for passes in 0..8 {
        for choice in 0..4 {
            let next = llsn.saturating_add(1);
            let mut fuse = FuseDisk::new(disk, OPENING + passes);
            let written = write(rt.alloc(), &mut fuse, &blank_at(next), 1);
            disk = fuse.into_disk();
            disk.crash(choice);
            let left = llsn_of(rt.alloc(), &mut disk);
            assert!(rt; left == Some(next) || left == Some(llsn) && !written);
            assert!(rt; written == (7 <= passes) || passes == 5 || passes == 6);
            llsn = left.unwrap_or(0);
        }
    }
    Ok(())
}

/// The LLSN of page 5 of a store.
fn llsn_of(alloc: Global, disk: &mut MemDisk) -> Option<u64> {
    let mut store = match Store::open(alloc, disk) {
        Ok(store) => store,
        Err(_) => return None,
    };
    let page = store.read_page(5).ok()?;
    Some(page.llsn())
}

#[test]
fn a_stopped_flip_leaves_the_old_header_or_the_new_one(rt: HostRuntime) -> Result<(), Fail> {
    let mut disk = fresh(rt.alloc())?;
    let mut generation = 1u64;
    for passes in 0..8 {
        for choice in 0..4 {
            let next = generation.saturating_add(1);
            let mut fuse = FuseDisk::new(disk, OPENING + passes);
            let flipped = flip(rt.alloc(), &mut fuse);
            disk = fuse.into_disk();
            disk.crash(choice);
            let left = generation_of(rt.alloc(), &mut disk);
            assert!(rt; left == Ok(next) || left == Ok(generation) && !flipped);
            generation = left.unwrap_or(0);
        }
    }
    Ok(())
}

/// Flips the store of a disk to the next generation.
fn flip<D: Disk>(alloc: Global, disk: &mut D) -> bool {
    let mut store = match Store::open(alloc, disk) {
        Ok(store) => store,
        Err(_) => return false,
    };
    let generation = store.header().generation;
    if 100 < generation {
        return false;
    }
    let header = Header {
        generation: generation + 1,
        base: 7,
        llsn: 9,
        version: 1,
    };
    store.flip_header(&header).is_ok() && store.is_open()
}

#[test]
fn closing_a_later_side_keeps_the_page_in_force(rt: HostRuntime) -> Result<(), Fail> {
    let mut disk = fresh(rt.alloc())?;
    // The side of page 5 that is written first lies at 10,528; it is one of generation 2 in a store of generation 1.
    assert!(rt; write(rt.alloc(), &mut disk, &blank_at(7), 2));
    for passes in 0..3 {
        for choice in 0..4 {
            let mut fuse = FuseDisk::new(disk, OPENING + 4096 + passes);
            let closed = close(rt.alloc(), &mut fuse);
            disk = fuse.into_disk();
            disk.crash(choice);
            assert!(rt; llsn_of(rt.alloc(), &mut disk) == Some(0));
            assert!(rt; !closed || byte_of(&mut disk, 10_528) != 165);
            assert!(rt; closed || passes < 2);
        }
    }
    Ok(())
}

/// Closes the later sides of the store of a disk.
fn close<D: Disk>(alloc: Global, disk: &mut D) -> bool {
    match Store::open(alloc, disk) {
        Ok(mut store) => store.close_later().is_ok() && store.is_open(),
        Err(_) => false,
    }
}

#[test]
fn a_fault_is_found_at_its_place(rt: HostRuntime) -> Result<(), Fail> {
    // Each row: a place and a byte that is written there into a fresh store, and the place that opening it answers.
    let table = [
        (0u32, 0, 0),
        (1, 0, 1),
        (8, 2, 8),
        (15, 1, 15),
        (16, 0, 16),
        (29, 1, 24),
        (39, 64, 32),
        (43, 1, 40),
        (63, 1, 63),
        (64, 165, 65),
        (129, 1, 129),
        (136, 0, 136),
        (144, 5, 144),
        (176, 1, 146),
        (128, 0, 128),
        (2208, 0, 2208),
        (3248, 165, 3256),
    ];
    let mut disk = fresh(rt.alloc())?;
    for (at, byte, place) in table {
        let at = u64::from(at);
        let mut was = [0];
        assert!(rt; read_exactly(&mut disk, at, &mut was).is_ok());
        assert!(rt; disk.write_at(at, &[byte]).is_ok());
        let refused = generation_of(rt.alloc(), &mut disk);
        assert_eq!(rt; refused, Err(StoreRefusal::NotStore { place }));
        assert!(rt; disk.write_at(at, &was).is_ok());
    }
    Ok(())
}

#[test]
fn a_short_file_is_no_store(rt: HostRuntime) -> Result<(), Fail> {
    let mut disk = fresh(rt.alloc())?;
    for (size, place) in [(LENGTH - 1, LENGTH - 1), (128, 128), (127, 0), (0, 0)] {
        assert!(rt; disk.cut(size).is_ok());
        let refused = generation_of(rt.alloc(), &mut disk);
        assert_eq!(rt; refused, Err(StoreRefusal::NotStore { place }));
    }
    Ok(())
}
