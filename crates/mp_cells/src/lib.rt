//! The cells that pages are made of, the changes of pages and the records of changes, as plain data that contracts see
//! field by field. The definitions of a page and of what a change does to it stand here too, in `specs/`.
#![tactic(auto)]

mod changes;
mod child_bytes;
mod child_cells;
mod children;
mod faults;
mod in_place;
mod kinds;
mod laws;
mod numbers;
mod page_data;
mod records;
mod row_bytes;
mod row_cells;
mod rows;
mod trees;

pub use changes::{Change, NotApplicable};
pub use child_bytes::{child_of, read_child, write_child};
pub use child_cells::ChildCells;
pub use children::Child;
pub use faults::{Fault, PageFault};
pub use kinds::Kind;
pub use laws::{
    law_bits, law_change_cells, law_changes_and_llsns, law_links, law_mtrs, law_page_lists,
    law_plans, law_prev_examples, law_rows_put, law_sorted_examples,
};
pub use numbers::{law_number_bytes, u16_at, u16_bytes, u32_at, u32_bytes, u64_at, u64_bytes};
pub use page_data::PageData;
pub use records::{Mtr, Record, Records};
pub use row_bytes::{read_row, row_of, write_row};
pub use row_cells::RowCells;
pub use rows::{Link, Row};
pub use trees::{
    law_clean_examples, law_heights, law_same_content, law_small_maps, law_tree_search,
};
