// What a kernel is made of.
use crate::notes::Notes;
use base_bytes::Blob;
use edge_disk::Disk;
use kernel_commit_facts::{Cell, Store};
use std::marker::Model;

/// A kernel's store, its cells, room for one blob, and what was noted.
#[derive(Drop)]
pub struct Core<D: Disk> {
    pub store: Store<D>,
    pub cells: Vec<Cell>,
    pub blob: Blob,
    pub notes: Notes,
}

impl<D: Disk> Model for Core<D> {
    ghost use Rattle.kernel_commit_facts.specs.Parts.{Parts, parts_of};

    ghost Value = { Parts D };

    ghost view = { λ c. parts_of c.store c.cells.items c.notes };
}
