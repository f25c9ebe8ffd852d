//! What the pages of a clean map are, and what they are not, in small maps.

ghost use Rattle.std.specs.Prelude.{◌≡◌, true, false, [], ◌∷◌, Some, None};
ghost use Rattle.mp_model.specs.declared.ids.TrxId.{TrxId};
ghost use Rattle.mp_cells.specs.declared.kinds.Kind.TheVariants.{Blank, Leaf, Inner, Undo};
ghost use Rattle.mp_cells.specs.declared.rows.Link.{Link};
ghost use Rattle.mp_cells.specs.PageView.{blank_page, leaf_page, undo_page};
ghost use Rattle.mp_cells.specs.Plans.{with_page};
ghost use Rattle.mp_cells.specs.SmallMaps.{fresh_map, two_leaves, gap_map, gone_row, leaves_at};
ghost use Rattle.mp_cells.specs.Trees.{top, root};
ghost use Rattle.mp_clean.specs.CleanPages.{kind_above, fits_child, fit_children, is_reached, least_rows, least_children, is_unwritten, is_clean_leaf, is_clean_inner, is_in_place, has_own_bit, is_clean_page};

/// Leaves stand lowest and inner pages above them. A root with two leaves is an inner page that holds all keys, and its
/// children fit. In a map with a gap the first child ends before the second begins.
pub fn law_fences_examples()
    ensures leaf { kind_above 0 ≡ Leaf }
    ensures inner { kind_above 1 ≡ Inner }
    ensures fits { fits_child two_leaves Inner top root ≡ true }
    ensures other_kind { fits_child two_leaves Leaf top root ≡ false }
    ensures fit { fit_children two_leaves Leaf top (leaves_at 9) ≡ true }
    ensures gap { fit_children gap_map Leaf top (leaves_at 9) ≡ false }
{}

/// The root has its place; a search comes to the second of two leaves, and not to a blank page. A root may have fewer rows
/// and children than other pages. A row without a writer is unwritten, one with a writer isn't.
pub fn law_places_examples()
    ensures at_root { is_reached two_leaves 1 1 ≡ true }
    ensures reached { is_reached two_leaves 1 3 ≡ true }
    ensures not_reached { is_reached two_leaves 1 4 ≡ false }
    ensures root_rows { least_rows 1 ≡ 0 }
    ensures leaf_rows { least_rows 2 ≡ 7 }
    ensures root_children { least_children 1 ≡ 2 }
    ensures inner_children { least_children 2 ≡ 62 }
    ensures unwritten { is_unwritten (gone_row 7) ≡ true }
    ensures written { (id : TrxId) (link : Link) → is_unwritten record { key = 7; value = None; writer = Some id; link = Some link } ≡ false }
{}

/// Below a root a leaf of seven rows is clean, and one of two isn't. A root with two leaves is clean over leaves, and not over
/// inner pages. A leaf under a root is in place, and so is a blank page, but an undo page never. The root of a fresh map has
/// its bit; a leaf without a bit doesn't, nor a blank page with one. A page is clean at its LLSN as the base, and not below.
pub fn law_clean_page_examples()
    ensures leaf { is_clean_leaf 1 two_leaves 2 ≡ true }
    ensures few_rows { is_clean_leaf 1 gap_map 2 ≡ false }
    ensures inner { is_clean_inner 0 two_leaves 1 ≡ true }
    ensures over_leaves { is_clean_inner 1 two_leaves 1 ≡ false }
    ensures in_place { is_in_place Leaf 1 two_leaves 2 ≡ true }
    ensures blank { is_in_place Blank 0 fresh_map 2 ≡ true }
    ensures undo { is_in_place Undo 0 (with_page fresh_map 2 (undo_page 0 [])) 2 ≡ false }
    ensures bit { has_own_bit fresh_map 1 ≡ true }
    ensures clear_bit { has_own_bit (with_page fresh_map 2 (leaf_page 0 0 top [])) 2 ≡ false }
    ensures set_bit { has_own_bit (with_page fresh_map 1 (blank_page 0)) 1 ≡ false }
    ensures page { is_clean_page 5 0 (with_page fresh_map 1 (leaf_page 5 0 top [])) 1 ≡ true }
    ensures above_base { is_clean_page 4 0 (with_page fresh_map 1 (leaf_page 5 0 top [])) 1 ≡ false }
{}
