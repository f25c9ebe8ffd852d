//! The files that a store lies in: a disk on a file of the system, one that reads ahead, and the nine disks of a store and
//! its logs.
#![tactic(auto)]

mod disks;
mod file_disk;
mod laws;
mod window_disk;

pub use disks::Disks;
pub use file_disk::{FileDisk, FileRefusal};
pub use laws::law_nine;
pub use window_disk::WindowDisk;
