// A copy, over three cells.
ghost use Rattle.std.specs.Prelude.{◌≡◌, ◌<◌, ◌^◌, ℕ, List, Some};
ghost use Rattle.data_atlas.specs.data_atlas_facts.Directory.{Directory};
ghost use Rattle.cell_births.specs.act_alone.declared.loci.Head.{Head as AHead};
ghost use Rattle.cell_births.specs.cell_newborns.Bearing.{IsUnbornContainer};
ghost use Rattle.cell_births.specs.cell_states.Cells.{HasCell};
ghost use Rattle.model_copies.specs.Copies.{IsCopied};
ghost use Rattle.model_copies.specs.model_kernel.Scripts.{container_named};
ghost use Rattle.model_copies.specs.model_kernel.State.{KernelState, Supply, Text};
ghost use Rattle.model_copies.specs.model_kernel.Steps.{atlas_in};
ghost use Rattle.cell_copies.specs.Copying.{HasCopy, HasPlaced, IsBlankCopy, IsSource, MayCopyCells, MayPlace};

use crate::parts::{copy_parts, place_part};
use cell_copy_clocks::copy_clocks;
use cell_wish_laws::{Cell, Part};
use data_blocks::ShadowTable;

/// Makes the newborn a copy of a container under a new name. Its pages have no block yet: `place_pages` gives them theirs. No page of the container is
/// resident. The cell of the newborn has its memory from the start, so that the copy takes none. Wishes stay as they are.
pub fn copy_cells(atlas: &mut Cell, source: &Cell, newborn: &mut Cell, fresh: &str)
    requires may { (d : Directory) × (h : AHead) × (from : List ℕ) × (atlas.old.part ≡ Part.Atlas d) × MayCopyCells d h from source.now newborn.old.clock.entity fresh.now }
    requires unborn { IsUnbornContainer newborn.old.part }
    requires atlas { atlas.old.clock.entity ≡ 0 }
    requires few { (atlas.old.clock.version < 2 ^ 63) × (newborn.old.clock.version < 2 ^ 63) }
    ensures copied { (s : Supply) → (words : ℕ → List ℕ) → (v : KernelState) → (name : Text) → container_named (atlas_in (v 0).cell) name ≡ Some source.now.clock.entity
        → HasCell s words v atlas.old → HasCell s words v source.now → HasCell s words v newborn.old → (h : AHead) → (from : List ℕ) → IsSource source.now.part h from
        → (w : KernelState) × IsCopied name fresh.now v w × HasCopy s words w from atlas.new newborn.new }
    ensures entities { (atlas.new.clock.entity ≡ atlas.old.clock.entity) × (newborn.new.clock.entity ≡ newborn.old.clock.entity) }
    ensures blank { (h : AHead) → (from : List ℕ) → IsSource source.now.part h from → IsBlankCopy h newborn.new.part }
{
    let number = newborn.clock.entity;
    copy_parts(
        &mut atlas.part,
        &source.part,
        &mut newborn.part,
        number,
        fresh,
    );
    copy_clocks(&mut atlas.clock, &source.clock, &mut newborn.clock);
}

/// Gives the pages of a born container these blocks. None of its pages is resident then, and nothing else of the cell changes.
pub fn place_pages(cell: &mut Cell, table: &ShadowTable)
    requires { MayPlace cell.old.part table.now.0 }
    ensures { HasPlaced cell.old table.now.0 cell.new }
{
    place_part(&mut cell.part, table);
}
