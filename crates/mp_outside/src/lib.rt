//! What the engine reads from and writes to: traits of the outside whose contracts say what each call does and which
//! count of faults rose where one failed, with forms in memory for tests and forms over standard input and output.
//! It hides how bytes come and go.
#![tactic(auto)]

mod buffers;
mod calls;
mod disk_reading;
mod disks;
mod errors;
mod fuse_disk;
mod laws;
mod marks;
mod mem_disk;
mod mem_sink;
mod mem_source;
mod reading;
mod sinks;
mod sources;
mod std_sink;
mod std_source;
mod writing;

pub use disk_reading::{byte_at, read_exactly};
pub use disks::Disk;
pub use errors::{Failed, ReadRefusal};
pub use fuse_disk::FuseDisk;
pub use laws::law_disk_examples;
pub use mem_disk::MemDisk;
pub use mem_sink::MemSink;
pub use mem_source::MemSource;
pub use reading::read_all;
pub use sinks::Sink;
pub use sources::Source;
pub use std_sink::StdSink;
pub use std_source::StdSource;
pub use writing::write_all;
