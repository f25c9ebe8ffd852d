//! The disks of a store.

/// A store's disk, and the disks of its logs, of which there are eight: that of primary n is the one with index n - 1.
#[derive(Debug, Drop)]
pub struct Disks<D> {
    pub store: D,
    pub logs: Vec<D>,
}
