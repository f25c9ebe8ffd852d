//! The pages whose bits are clear on the meta page: those that a plan may take.

ghost use Rattle.std.specs.Prelude.{◌≡◌, ◌≤◌, length, IsTrue};
ghost use Rattle.mp_cells.specs.declared.kinds.Kind.TheVariants.{Meta};
ghost use Rattle.mp_cells.specs.PageView.{IsPage};
ghost use Rattle.mp_tree.specs.Planning.{clear_pages, IsNextClear};

use mp_page::Page;

/// How many bits are clear.
pub(crate) fn count_clear(meta: &Page) -> u32
    requires page { IsPage meta.now }
    requires kind { meta.now.kind ≡ Meta }
    ensures { result ≡ length (clear_pages meta.now) }
{
    let mut count = 0;
    for page in 0..4096u16 {
        if !meta.taken(page) {
            count += 1;
        }
    }
    count
}

/// The lowest page from this one on whose bit is clear, or 4,096.
pub(crate) fn next_clear(meta: &Page, from: u16) -> u16
    requires page { IsPage meta.now }
    requires kind { meta.now.kind ≡ Meta }
    requires from { from ≤ 4096 }
    ensures { IsNextClear from result meta.now.bits }
{
    for page in from..4096 {
        if !meta.taken(page) {
            return page;
        }
    }
    4096
}
