//! The test of pages on a fresh store, and on one whose leaf lacks the keys above its one row.

use crate::is_clean;
use mp_model::Memory;
use mp_page::{Change, Page, Pages, Row, RowCells, apply};
use std::alloc::Global;
use std::test::*;

// A leaf with the row of key 7, gone, from 0 on.
fn leaf_up_to(high: u64) -> Page {
    let mut rows = RowCells::new();
    rows.put(Row {
        key: 7,
        value: None,
        writer: None,
        link: None,
    });
    let mut page = Page::blank();
    let _made = apply(&mut page, &Change::MakeLeaf { low: 0, high, rows });
    page
}

// A fresh store whose root is this page.
fn with_root(alloc: Global, root: Page) -> Result<Pages, Memory> {
    let mut pages = Pages::new(alloc);
    let fresh = Pages::fresh(alloc)?;
    for i in 0..fresh.len() {
        let page = if i == 1 { root } else { *fresh.get(i) };
        pages.push(page)?;
    }
    Ok(pages)
}

#[test]
fn a_fresh_store_is_clean(rt: HostRuntime) -> Result<(), Memory> {
    let pages = Pages::fresh(rt.alloc())?;
    assert!(rt; is_clean(&pages, 0));
    Ok(())
}

#[test]
fn a_root_holds_all_keys(rt: HostRuntime) -> Result<(), Memory> {
    let whole = with_root(rt.alloc(), leaf_up_to(1 << 32))?;
    assert!(rt; is_clean(&whole, 0));
    // Key 7 stands in the leaf's fences, but keys from 8 on have no leaf.
    let short = with_root(rt.alloc(), leaf_up_to(8))?;
    assert!(rt; !is_clean(&short, 0));
    Ok(())
}
