//! The clocks of a copy: the atlas and the new container are written, and the one that is copied is read.
#![tactic(auto)]

ghost use Rattle.std.specs.Prelude.{◌≡◌, ◌==◌, ◌+◌, ◌<◌, ◌^◌, ℕ, max, if◌then◌else◌, ◌∷◌, []};
ghost use Rattle.cell_clocks.specs.Clocks.{HasClock, writing, reading};
ghost use Rattle.cell_clocks.specs.model_kernel.Changes.{changed};
ghost use Rattle.cell_clocks.specs.model_kernel.State.{Cell as ModelCell, KernelState};
ghost use Rattle.data_stamps.specs.Stamps.{component};

use base_types::Entity;
use cell_clocks::Clock;
use data_stamps::Stamp;

/// Takes in an entity at a version.
fn raise(stamp: &mut Stamp, entity: Entity, version: u64)
    ensures { (y : ℕ) → component stamp.new y ≡ max (component stamp.old y) (if entity == y then version else 0) }
{
    stamp.raise(entity, version);
}

/// Takes in a copy: the atlas and the newborn get the next version, and the clock that joins those of all three.
pub fn copy_clocks(atlas: &mut Clock, source: &Clock, newborn: &mut Clock)
    requires few_atlas { atlas.old.version < 2 ^ 63 }
    requires few_newborn { newborn.old.version < 2 ^ 63 }
    requires first_apart { atlas.old.entity < source.now.entity }
    requires second_apart { source.now.entity < newborn.old.entity }
    ensures entity_atlas { atlas.new.entity ≡ atlas.old.entity }
    ensures entity_newborn { newborn.new.entity ≡ newborn.old.entity }
    ensures carries { (w : KernelState) → HasClock w atlas.old → HasClock w source.now → HasClock w newborn.old → (j k : ModelCell)
        → HasClock (changed w (writing atlas.old.entity j ∷ reading source.now.entity ∷ writing newborn.old.entity k ∷ [])) atlas.new
        × HasClock (changed w (writing atlas.old.entity j ∷ reading source.now.entity ∷ writing newborn.old.entity k ∷ [])) newborn.new }
{
    let first = atlas.version + 1;
    let third = newborn.version + 1;
    atlas.stamp.meet(&source.stamp);
    atlas.stamp.meet(&newborn.stamp);
    raise(&mut atlas.stamp, atlas.entity, first);
    raise(&mut atlas.stamp, source.entity, source.version);
    raise(&mut atlas.stamp, newborn.entity, third);
    newborn.stamp = atlas.stamp;
    atlas.version = first;
    newborn.version = third;
}
