//! How many steps were made by each kind of plan.
use base_types::{Entry, Instr};

/// How many steps of each kind were made.
#[derive(Clone, Copy, PartialEq, Eq, Debug)]
pub(crate) struct Kinds {
    /// By the locus alone, but for stabilises.
    pub(crate) alone: u32,
    /// Stabilises, for which all cells are lent.
    pub(crate) stabilise: u32,
    /// Loads and stores beside a container.
    pub(crate) look: u32,
    /// Others beside one entity.
    pub(crate) beside: u32,
    /// Regions that were put in or taken out.
    pub(crate) mapping: u32,
    pub(crate) make: u32,
    pub(crate) spawn: u32,
    /// Births for which no number was free.
    pub(crate) barren: u32,
}

// One more, but for the last number.
fn count(number: &mut u32) {
    *number = number.wrapping_add(1);
}

impl Kinds {
    pub(crate) fn none() -> Kinds {
        Kinds {
            alone: 0,
            stabilise: 0,
            look: 0,
            beside: 0,
            mapping: 0,
            make: 0,
            spawn: 0,
            barren: 0,
        }
    }

    /// Counts a step by its instruction, and by how many entities it touched.
    pub(crate) fn add(&mut self, instr: Instr, entry: &Entry) {
        match (entry.touched.as_slice().len(), instr) {
            (1, Instr::Stabilise(_)) => count(&mut self.stabilise),
            (1, _) => count(&mut self.alone),
            (2, Instr::Load(..) | Instr::Store(..)) => count(&mut self.look),
            (2, Instr::Make(..) | Instr::Spawn(..)) => count(&mut self.barren),
            (2, _) => count(&mut self.beside),
            (_, Instr::Make(..)) => count(&mut self.make),
            (_, Instr::Spawn(..)) => count(&mut self.spawn),
            _ => count(&mut self.mapping),
        }
    }

    /// Both together.
    pub(crate) fn and(self, more: Kinds) -> Kinds {
        Kinds {
            alone: self.alone.wrapping_add(more.alone),
            stabilise: self.stabilise.wrapping_add(more.stabilise),
            look: self.look.wrapping_add(more.look),
            beside: self.beside.wrapping_add(more.beside),
            mapping: self.mapping.wrapping_add(more.mapping),
            make: self.make.wrapping_add(more.make),
            spawn: self.spawn.wrapping_add(more.spawn),
            barren: self.barren.wrapping_add(more.barren),
        }
    }
}
