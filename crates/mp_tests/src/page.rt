//! The first faults of a page, by leaves with some bytes changed.

use mp_page::{Change, Fault, NotApplicable, apply, read_page, write_page};
use std::test::*;

// The leaf without rows whose fences are 0 and 2^32, with these bytes changed.
fn leaf_with(changes: &[(usize, u8)]) -> [u8; 1024] {
    let mut bytes = [0; 1024];
    bytes[0] = 2;
    bytes[1] = 1;
    bytes[28] = 1;
    for (place, byte) in changes {
        if *place < 1024 {
            bytes[*place] = *byte;
        }
    }
    bytes
}

fn fault(changes: &[(usize, u8)]) -> Option<(Fault, u32)> {
    match read_page(&leaf_with(changes)) {
        Ok(_) => None,
        Err(fault) => Some((fault.fault, fault.offset)),
    }
}

#[test]
fn headers(rt: HostRuntime) {
    let table = [
        ([].as_slice(), None),
        (&[(0, 5)], Some((Fault::Kind, 0))),
        (&[(0, 255)], Some((Fault::Kind, 0))),
        (&[(1, 0)], Some((Fault::Kind, 1))),
        (&[(1, 2)], Some((Fault::Kind, 1))),
        (&[(2, 16)], Some((Fault::Count, 2))),
        (&[(3, 1)], Some((Fault::Count, 2))),
        (&[(4, 1), (7, 1)], Some((Fault::Padding, 4))),
        (&[(5, 1)], Some((Fault::Padding, 5))),
        (&[(7, 1)], Some((Fault::Padding, 7))),
        (&[(1023, 1)], Some((Fault::Padding, 1023))),
        (&[(15, 0x3f)], None),
        (&[(15, 0x40)], Some((Fault::Fence, 8))),
        (&[(28, 0)], Some((Fault::Fence, 16))),
        (&[(28, 2)], Some((Fault::Fence, 16))),
        (&[(20, 1)], Some((Fault::Fence, 16))),
        // Of two faults the earlier step's comes.
        (&[(0, 5), (1, 0)], Some((Fault::Kind, 0))),
        (&[(1, 0), (2, 16)], Some((Fault::Kind, 1))),
        (&[(2, 16), (5, 1)], Some((Fault::Count, 2))),
        (&[(5, 1), (15, 0x40)], Some((Fault::Padding, 5))),
        (&[(15, 0x40), (28, 2)], Some((Fault::Fence, 8))),
        (&[(28, 2), (1023, 1)], Some((Fault::Fence, 16))),
    ];
    for (changes, found) in table {
        assert_eq!(rt; fault(changes), found);
    }
}

#[test]
fn leaves(rt: HostRuntime) {
    let table = [
        // The gone rows 7 and 9, without writers.
        ([(2, 2), (32, 7), (96, 9)].as_slice(), None),
        (
            &[(2, 2), (32, 7), (96, 9), (36, 2)],
            Some((Fault::Cell, 32)),
        ),
        (
            &[(2, 2), (32, 7), (96, 9), (101, 1)],
            Some((Fault::Cell, 96)),
        ),
        (
            &[(2, 2), (32, 7), (96, 9), (159, 1)],
            Some((Fault::Cell, 96)),
        ),
        (&[(2, 2), (32, 7), (96, 7)], Some((Fault::Order, 96))),
        (&[(2, 2), (32, 7), (96, 6)], Some((Fault::Order, 96))),
        (&[(2, 2), (32, 7), (96, 9), (16, 7)], None),
        (
            &[(2, 2), (32, 7), (96, 9), (16, 8)],
            Some((Fault::Fence, 32)),
        ),
        (&[(2, 2), (32, 7), (96, 9), (28, 0), (24, 10)], None),
        (
            &[(2, 2), (32, 7), (96, 9), (28, 0), (24, 9)],
            Some((Fault::Fence, 96)),
        ),
        (
            &[(2, 2), (32, 7), (96, 9), (160, 1)],
            Some((Fault::Padding, 160)),
        ),
        (&[(2, 1), (32, 7), (96, 9)], Some((Fault::Padding, 96))),
        // The cell comes before its order, its order before its fences, and a cell before the next.
        (
            &[(2, 2), (32, 7), (96, 6), (100, 2)],
            Some((Fault::Cell, 96)),
        ),
        (
            &[(2, 2), (32, 7), (96, 6), (16, 7)],
            Some((Fault::Order, 96)),
        ),
        (
            &[(2, 2), (32, 7), (100, 2), (16, 8)],
            Some((Fault::Fence, 32)),
        ),
        (
            &[(2, 2), (32, 7), (96, 7), (1023, 1)],
            Some((Fault::Order, 96)),
        ),
    ];
    for (changes, found) in table {
        assert_eq!(rt; fault(changes), found);
    }
}

#[test]
fn other_kinds(rt: HostRuntime) {
    let table = [
        // Blank and meta pages have no fences; the meta page's count is that of its bits.
        ([(0, 0)].as_slice(), Some((Fault::Fence, 16))),
        (&[(0, 0), (28, 0)], None),
        (&[(0, 0), (28, 0), (2, 1)], Some((Fault::Count, 2))),
        (&[(0, 0), (28, 0), (32, 1)], Some((Fault::Padding, 32))),
        (&[(0, 1), (28, 0), (2, 2), (32, 3)], None),
        (&[(0, 1), (28, 0), (2, 1), (32, 3)], Some((Fault::Count, 2))),
        (&[(0, 1), (28, 0), (2, 3), (32, 3), (543, 128)], None),
        (&[(0, 1), (28, 0), (544, 1)], Some((Fault::Padding, 544))),
        // An inner page has a first child, at its low fence.
        (&[(0, 3)], Some((Fault::Count, 2))),
        (&[(0, 3), (2, 1), (36, 2)], None),
        (&[(0, 3), (2, 1), (36, 1)], Some((Fault::Cell, 32))),
        (&[(0, 3), (2, 1), (36, 2), (39, 1)], Some((Fault::Cell, 32))),
        (
            &[(0, 3), (2, 1), (36, 2), (32, 1)],
            Some((Fault::Fence, 32)),
        ),
        (
            &[(0, 3), (2, 2), (36, 2), (44, 3)],
            Some((Fault::Order, 40)),
        ),
        (
            &[(0, 3), (2, 2), (36, 2), (40, 5), (44, 3), (28, 0), (24, 5)],
            Some((Fault::Fence, 40)),
        ),
        (
            &[(0, 3), (2, 1), (36, 2), (40, 1)],
            Some((Fault::Padding, 40)),
        ),
        // The keys of an undo page stand in any order.
        (&[(0, 4), (28, 0), (2, 2), (32, 9), (96, 7)], None),
        (
            &[(0, 4), (28, 0), (2, 2), (32, 9), (100, 2)],
            Some((Fault::Cell, 96)),
        ),
    ];
    for (changes, found) in table {
        assert_eq!(rt; fault(changes), found);
    }
}

#[test]
fn a_changed_page_is_written_and_read(rt: HostRuntime) -> Result<(), Fail> {
    let mut page = read_page(&leaf_with(&[(2, 2), (32, 7), (96, 9)]))
        .ok()
        .ok_or("a leaf")?;
    assert_eq!(rt; apply(&mut page, &Change::Cut { from: 9 }), Ok(()));
    let mut bytes = [9; 1024];
    write_page(&page, &mut bytes);
    assert_eq!(rt; bytes, leaf_with(&[(2, 1), (32, 7), (24, 9), (28, 0)]));
    assert_eq!(rt; apply(&mut page, &Change::MakeUndo), Err(NotApplicable));
    Ok(())
}
