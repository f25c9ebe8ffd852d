//! The words of transaction slots.

use mp_core_trx::{Shown, SlotTag};

#[test]
fn a_word_shows_its_fields(rt: HostRuntime) {
    let shown = Shown {
        tag: SlotTag::Committed,
        version: 1,
        cts: 1,
    };
    assert_eq!(rt; shown.word(), 67_108_871);
    assert_eq!(rt; Shown::read(67_108_871), shown);
}
