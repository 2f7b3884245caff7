// The table of cells.
ghost use Rattle.std.specs.Prelude.{◌≡◌, ◌≤◌, ◌<◌, ℕ, Bool, List, [], IfOk, length, slice_index};
ghost use Rattle.edge_disk.specs.Image.{Image};
ghost use Rattle.cell_clocks.specs.model_kernel.Histories.{start_run};
ghost use Rattle.cell_clocks.specs.model_kernel.State.{Supply, empty_state};
ghost use Rattle.image_state_laws.specs.image_meaning.Meaning.{Means};
ghost use Rattle.image_state_laws.specs.image_meaning.Parts.{AreFormed};
ghost use Rattle.image_chosen.specs.Parts.{ArePartsOf};
ghost use Rattle.image_chosen.specs.image_chosen_facts.Parts.{IsAcceptedWith};
ghost use Rattle.image_chosen.specs.image_chosen_facts.Tables.{blocks_in};
ghost use Rattle.image_chosen.specs.log_reading.Logs.{IsKnown};
ghost use Rattle.image_chosen.specs.log_reading.declared.log.ImageLog.{ImageLog};
ghost use Rattle.image_chosen.specs.image_fits.Chosen.{parts_of};
ghost use Rattle.table_laws.specs.Tables.{AreClean, HasTableWishes, IsOrderly, state_in, tables_in};
ghost use Rattle.kernel_record_facts.specs.Cells.{words_on};
ghost use Rattle.table_opened.specs.Held.{HoldsNamed};
ghost use Rattle.table_opened.specs.Opened.{AreChosenCells, HaveFrames};

use crate::cells::cell_for;
use base_types::{Entity, MOST_ENTITIES};
use image_chosen::{ChosenEntity, ImageParts};
use kernel_record_facts::Cell;
use std::alloc::{AllocError, Global};

// The cells of these entities.
fn chosen_cells(
    alloc: Global,
    entities: Vec<Option<ChosenEntity>>,
    frames: u16,
    steps: u32,
) -> Result<Vec<Cell>, AllocError>
    requires some { 0 < frames }
    requires few { frames ≤ 256 }
    requires places { length entities.items ≡ MOST_ENTITIES }
    requires formed { AreFormed (parts_of entities.items) }
    ensures { IfOk result (λ cells. AreChosenCells frames steps entities.items cells.items) }
{
    let mut entities = entities;
    let mut cells = Vec::new(alloc);
    for number in 0..MOST_ENTITIES {
        let entity = entities[number as usize].take();
        let cell = cell_for(alloc, Entity::of(number), entity, frames, steps)?;
        cells.push(cell)?;
    }
    Ok(cells)
}

/// The cells of a kernel that goes on from an image with these parts: of each entity what is chosen, and of no other anything that is
/// born, over the empty atlas where none is chosen. Each cell's newest record is its version, no page is resident, and each locus may
/// make so many steps.
///
/// It takes the parts. Each container's number gets a memory of so many frames, from 1 to 256, also where none is born, so that a birth
/// takes no memory: 40 KiB for a frame of each, and some 8 KiB for each of the 64 cells besides. No disk is read.
pub fn cells_of(
    alloc: Global,
    parts: ImageParts,
    frames: u16,
    steps: u32,
) -> Result<Vec<Cell>, AllocError>
    requires some { 0 < frames }
    requires few { frames ≤ 256 }
    requires places { length parts.entities.items ≡ MOST_ENTITIES }
    requires formed { AreFormed (parts_of parts.entities.items) }
    ensures chosen { IfOk result (λ cells. AreChosenCells frames steps parts.entities.items cells.items) }
    // Whatever the disk tells the table is in order, where exactly the blocks of the parts' pages are held.
    ensures orderly { (count : ℕ) (log : ImageLog) (held : ℕ → Bool) → IsKnown count log → ArePartsOf log parts → HoldsNamed held (parts_of parts.entities.items)
        → IfOk result (λ cells. IsOrderly held cells.items) }
    ensures state { (log : ImageLog) (image : Image) (s : Supply) → ArePartsOf log parts → IsAcceptedWith image log.recs.items (parts_of parts.entities.items)
        → IfOk result (λ cells. Means s image (state_in s (words_on image) cells.items)) }
    ensures tables { IfOk result (λ cells. (x page : ℕ) → slice_index (tables_in cells.items x) page ≡ slice_index (blocks_in (parts_of parts.entities.items x)) page) }
    ensures frames { IfOk result (λ cells. HaveFrames frames cells.items) }
    ensures clean { (s : Supply) (words : ℕ → List ℕ) → IfOk result (λ cells. AreClean s words cells.items) }
    ensures wishes { (s : Supply) (words : ℕ → List ℕ) → IfOk result (λ cells. HasTableWishes steps (start_run (state_in s words cells.items)) cells.items) }
    // What has version 0 is as in the empty state, and without a record all is.
    ensures unwritten { (count : ℕ) (log : ImageLog) (s : Supply) (words : ℕ → List ℕ) (x : ℕ) → IsKnown count log → ArePartsOf log parts
        → IfOk result (λ cells. (state_in s words cells.items x).version ≡ 0 → state_in s words cells.items x ≡ empty_state x) }
    ensures nothing { (log : ImageLog) (s : Supply) (words : ℕ → List ℕ) → ArePartsOf log parts → log.recs.items ≡ [] → IfOk result (λ cells. state_in s words cells.items ≡ empty_state) }
{
    chosen_cells(alloc, parts.entities, frames, steps)
}
