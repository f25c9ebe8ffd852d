//! Pages: how they are read from bytes and written, and how a change is applied to one. What a page shows and what a
//! change does is defined below, in `mp_cells`, whose types are handed on from here.
#![tactic(auto)]

mod bits;
mod body;
mod changing;
mod fresh;
mod page;
mod pager;
mod pages;
mod reading;
mod writing;

pub use changing::apply;
pub use mp_cells::{
    Change, Child, ChildCells, Fault, Kind, Link, Mtr, NotApplicable, PageFault, Record, Records,
    Row, RowCells,
};
pub use page::Page;
pub use pager::Pager;
pub use pages::Pages;
pub use reading::read_page;
pub use writing::write_page;
