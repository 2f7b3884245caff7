// Cells: an entity with all that the kernel keeps of it.
use act_calls::{Head, Locus};
use cell_clocks::Clock;
use data_atlas::Atlas;
use page_memory::PagedMemory;

/// What a container's cell keeps: its head, where it is born, and its memory, which is there from the start so that a birth
/// takes none.
#[derive(Drop)]
pub struct Storage {
    pub head: Option<Head>,
    pub memory: PagedMemory,
}

/// What an entity is. A container or a locus that isn't born has no head or no locus.
#[derive(Drop)]
pub enum Part {
    Atlas(Atlas),
    Container(Storage),
    Locus(Option<Locus>),
}

/// What the wish for a snapshot of an entity depends on.
#[derive(Clone, Copy, PartialEq, Eq, Debug)]
pub struct Wish {
    /// The last event that wrote the entity is a step, and it has no record since.
    pub by_step: bool,
    /// A snap named the entity after its newest record.
    pub asked: bool,
    /// The version of the newest record, 0 for none.
    pub newest: u64,
}

/// An entity, with its version, vector clock and wish.
#[derive(Drop)]
pub struct Cell {
    pub clock: Clock,
    pub part: Part,
    pub wish: Wish,
    /// How many steps a locus may still make.
    pub left: u32,
}
