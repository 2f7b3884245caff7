// Room for the cells that come back from their locks.
ghost use Rattle.std.specs.Prelude.{◌≡◌, ◌≤◌, [], vec_capacity, vec_len};

use std::alloc::{AllocError, Global};
use thread_items::Cell;

/// A place for each of 64 cells that come back in any order, and room for them in their order.
#[derive(Drop)]
pub(crate) struct Room {
    pub(crate) places: Vec<Option<Cell>>,
    pub(crate) cells: Vec<Cell>,
    ghost all: { vec_len places ≡ 64 },
    ghost none: { cells.items ≡ [] },
    ghost enough: { 64 ≤ vec_capacity cells },
}

impl Room {
    /// Takes the room.
    pub(crate) fn new(alloc: Global) -> Result<Room, AllocError> {
        let mut places = Vec::new(alloc);
        places.resize_with(64, || None)?;
        Ok(Room {
            places,
            cells: Vec::with_capacity(alloc, 64)?,
        })
    }
}
