//! The words of page locks.

use mp_core_pages::{
    Held, exclusive, has_other, has_other_writer, held_by, release_mask, shared_with,
};

#[test]
fn a_lock_word_names_its_holders(rt: HostRuntime) {
    let readers = shared_with(1, 3);
    assert_eq!(rt; readers, 5);
    assert_eq!(rt; held_by(readers, 2), Held::No);
    assert_eq!(rt; readers & release_mask(1), 4);
    let writer = exclusive(3);
    assert_eq!(rt; writer, 768);
    assert_eq!(rt; held_by(writer, 3), Held::Write);
    assert!(rt; has_other_writer(writer, 1) && !has_other_writer(writer, 3));
    assert_eq!(rt; writer & release_mask(3), 0);
    assert!(rt; has_other(readers, 1) && !has_other(1, 1));
}
