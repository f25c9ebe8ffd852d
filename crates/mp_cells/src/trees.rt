//! What holds of every map of pages that is a tree.

ghost use Rattle.std.specs.Prelude.{◌≡◌, ℕ, ◌<◌, ◌≤◌, ◌^◌, [], ◌∷◌, length, Some, None, IsTrue};
ghost use Rattle.mp_model.specs.declared.ids.TrxId.{TrxId};
ghost use Rattle.mp_cells.specs.declared.kinds.Kind.TheVariants.{Leaf};
ghost use Rattle.mp_cells.specs.declared.rows.Link.{Link};
ghost use Rattle.mp_cells.specs.declared.rows.Row.{Row};
ghost use Rattle.mp_cells.specs.Keys.{rises};
ghost use Rattle.mp_cells.specs.PageView.{SameContent, leaf_page, undo_page};
ghost use Rattle.mp_cells.specs.Trees.{PageMap, top, root, IsTree, tree_rows, row_at, leaf_at, height_of, rows_in, IsClean};
ghost use Rattle.mp_cells.specs.Plans.{with_page};
ghost use Rattle.mp_cells.specs.Writes.{undo_at};
ghost use Rattle.mp_cells.specs.SmallMaps.{fresh_map, two_leaves, gap_map, gone_row};

/// In a tree of pages the rows of all leaves stand in key order. A search from the root comes to a leaf whose fences hold
/// the key, and the key's row there is its row among all. A map of pages has one height, so its rows depend on the map
/// alone.
pub fn law_tree_search()
    ensures rows_rise { (pages : PageMap) (height : ℕ) → IsTree pages height → IsTrue (rises (λ row. row.key) 0 top (tree_rows pages height)) }
    ensures found { (pages : PageMap) (height key : ℕ) → IsTree pages height → key < top → row_at key (tree_rows pages height) ≡ row_at key (pages (leaf_at pages height key root).page).rows }
    ensures leaf { (pages : PageMap) (height key : ℕ) → IsTree pages height → key < top → (pages (leaf_at pages height key root).page).kind ≡ Leaf }
    ensures from { (pages : PageMap) (height key : ℕ) → IsTree pages height → key < top → (pages (leaf_at pages height key root).page).low ≤ key }
    ensures until { (pages : PageMap) (height key : ℕ) → IsTree pages height → key < top → key < (pages (leaf_at pages height key root).page).high }
    ensures one_height { (pages : PageMap) (a b : ℕ) → IsTree pages a → IsTree pages b → a ≡ b }
{}

/// The height of a tree is that of its map; so its rows are those of the map.
pub fn law_heights()
    ensures height { (pages : PageMap) (height : ℕ) → IsTree pages height → height ≡ height_of pages }
    ensures rows { (pages : PageMap) (height : ℕ) → IsTree pages height → tree_rows pages height ≡ rows_in pages }
{}

/// Pages with other LLSNs (below 2^62) are a tree as before, with the same rows and undo records.
pub fn law_same_content()
    ensures tree { (pages new : PageMap) (height : ℕ) → ((n : ℕ) → SameContent (pages n) (new n)) → ((n : ℕ) → n < 4096 → (new n).llsn < 2 ^ 62) → IsTree pages height → IsTree new height }
    ensures rows { (pages new : PageMap) (height : ℕ) → ((n : ℕ) → SameContent (pages n) (new n)) → tree_rows new height ≡ tree_rows pages height }
    ensures undo { (pages new : PageMap) (link : Link) → ((n : ℕ) → SameContent (pages n) (new n)) → undo_at new link ≡ undo_at pages link }
{}

/// A fresh map is a clean tree without rows, and a root with two leaves is a clean tree, in which a search finds a row
/// that is there and none that isn't. A map whose fences leave a gap is no tree.
pub fn law_small_maps()
    ensures fresh { IsTree fresh_map 0 }
    ensures fresh_clean { IsClean 0 fresh_map }
    ensures fresh_rows { rows_in fresh_map ≡ [] }
    ensures two { IsTree two_leaves 1 }
    ensures two_clean { IsClean 0 two_leaves }
    ensures two_rows { length (rows_in two_leaves) ≡ 14 }
    ensures found { row_at 12 (rows_in two_leaves) ≡ Some (gone_row 12) }
    ensures absent { row_at 8 (rows_in two_leaves) ≡ None }
    ensures gap { (height : ℕ) → IsTree gap_map height → ⊥ }
{}

/// A map is not clean where an LLSN is above the base, a row has a writer, or a page is an undo page.
pub fn law_clean_examples()
    ensures llsn { IsClean 4 (with_page fresh_map 1 (leaf_page 5 0 top [])) → ⊥ }
    ensures writer { (id : TrxId) (link : Link) → IsClean 4 (with_page fresh_map 1 (leaf_page 0 0 top (record { key = 7; value = None; writer = Some id; link = Some link } ∷ []))) → ⊥ }
    ensures undo { IsClean 4 (with_page fresh_map 2 (undo_page 0 [])) → ⊥ }
{}
