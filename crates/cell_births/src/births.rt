// The births of a container and of a locus over cells.
ghost use Rattle.std.specs.Prelude.{◌≡◌, ◌<◌, ◌^◌, ◌∷◌, [], ℕ, List, None, Some, false, string_bytes};
ghost use Rattle.script_types.specs.model_kernel.Histories.{writes};
ghost use Rattle.script_types.specs.model_kernel.Scripts.{Script, container_table, locus_table};
ghost use Rattle.script_types.specs.model_kernel.State.{KernelState, Supply};
ghost use Rattle.script_types.specs.Scripts.{container_of, locus_of};
ghost use Rattle.data_atlas.specs.data_atlas_facts.Directory.{Directory};
ghost use Rattle.cell_wish_laws.specs.cell_states.Cells.{HasCell};
ghost use Rattle.cell_wish_laws.specs.Founded.{TakesBirth};
ghost use Rattle.cell_newborns.specs.Bearing.{IsNewContainer, IsUnbornContainer};
ghost use Rattle.cell_births.specs.Bearing.{Bears, IsBirthEntry, MayBearContainer, MayBearLocus};

use crate::{containers, loci};
use base_types::{Answer, Entry, Event};
use cell_clocks::{write_three, write_two};
use cell_wish_laws::{Cell, Part, Wish};
use script_types::{ScriptContainer, ScriptLocus};

/// The wish of a written cell: a birth is its last writer.
fn born(wish: &Wish) -> Wish
    ensures { result ≡ record wish.now { by_step = false } }
{
    Wish {
        by_step: false,
        ..*wish
    }
}

/// The birth of a container from its table. The cell of the lowest free number becomes the container; its memory is begun anew,
/// and no page of it is resident or has a block. It takes no memory, and costs a pass over the names for each name in the table.
pub fn bear_container(atlas: &mut Cell, newborn: &mut Cell, table: &ScriptContainer) -> Entry
    requires may { (d : Directory) × (atlas.old.part ≡ Part.Atlas d) × MayBearContainer d (container_of table.now) newborn.old.clock.entity }
    requires unborn { IsUnbornContainer newborn.old.part }
    requires atlas { atlas.old.clock.entity ≡ 0 }
    requires few { (atlas.old.clock.version < 2 ^ 63) × (newborn.old.clock.version < 2 ^ 63) }
    ensures birth { (s : Supply) → (words : ℕ → List ℕ) → (script : Script) → (w : KernelState)
        → container_table script.containers (string_bytes table.now.name) ≡ Some (container_of table.now)
        → HasCell s words w atlas.old → HasCell s words w newborn.old
        → Bears s script (string_bytes table.now.name) w result (λ v. HasCell s words v atlas.new × HasCell s words v newborn.new) }
    ensures entry { IsBirthEntry result newborn.old.clock.entity (0 ∷ newborn.old.clock.entity ∷ []) }
    ensures memory { IsNewContainer newborn.new.part }
    ensures wishes { TakesBirth (writes result atlas.old.clock.entity) atlas.old atlas.new × TakesBirth (writes result newborn.old.clock.entity) newborn.old newborn.new }
{
    let number = newborn.clock.entity;
    containers::bear_in_parts(&mut atlas.part, &mut newborn.part, number, table);
    atlas.wish = born(&atlas.wish);
    newborn.wish = born(&newborn.wish);
    write_two(
        Event::Birth,
        number,
        Answer::Quiet,
        &mut atlas.clock,
        &mut newborn.clock,
    )
}

/// The birth of a locus from its table, in the host that the table names. The cell of the lowest free number becomes the locus; of the
/// host only version, clock and wish change. It takes no memory, and costs a pass over the names for each capability.
pub fn bear_locus(
    atlas: &mut Cell,
    host: &mut Cell,
    newborn: &mut Cell,
    table: &ScriptLocus,
) -> Entry
    requires may { (d : Directory) × (atlas.old.part ≡ Part.Atlas d) × MayBearLocus d (locus_of table.now) host.old.clock.entity newborn.old.clock.entity }
    requires atlas { atlas.old.clock.entity ≡ 0 }
    requires few { (atlas.old.clock.version < 2 ^ 63) × (host.old.clock.version < 2 ^ 63) × (newborn.old.clock.version < 2 ^ 63) }
    ensures birth { (s : Supply) → (words : ℕ → List ℕ) → (script : Script) → (w : KernelState)
        → container_table script.containers (string_bytes table.now.name) ≡ None
        → locus_table script.loci (string_bytes table.now.name) ≡ Some (locus_of table.now)
        → HasCell s words w atlas.old → HasCell s words w host.old → HasCell s words w newborn.old
        → Bears s script (string_bytes table.now.name) w result (λ v. HasCell s words v atlas.new × HasCell s words v host.new × HasCell s words v newborn.new) }
    ensures entry { IsBirthEntry result newborn.old.clock.entity (0 ∷ host.old.clock.entity ∷ newborn.old.clock.entity ∷ []) }
    ensures host { host.new.part ≡ host.old.part }
    ensures wishes { TakesBirth (writes result atlas.old.clock.entity) atlas.old atlas.new × TakesBirth (writes result host.old.clock.entity) host.old host.new × TakesBirth (writes result newborn.old.clock.entity) newborn.old newborn.new }
{
    let number = newborn.clock.entity;
    let numbers = (host.clock.entity, number);
    loci::bear_in_parts(
        &mut atlas.part,
        &host.part,
        &mut newborn.part,
        numbers,
        table,
    );
    atlas.wish = born(&atlas.wish);
    host.wish = born(&host.wish);
    newborn.wish = born(&newborn.wish);
    write_three(
        Event::Birth,
        number,
        Answer::Quiet,
        &mut atlas.clock,
        &mut host.clock,
        &mut newborn.clock,
    )
}
