// A copy, on the parts of three cells.
ghost use Rattle.std.specs.Prelude.{◌≡◌, ◌≤◌, ℕ, List, Some, replicate};
ghost use Rattle.data_atlas.specs.data_atlas_facts.Directory.{Directory};
ghost use Rattle.cell_births.specs.act_alone.declared.loci.Head.{Head as AHead};
ghost use Rattle.cell_births.specs.act_calls.Calls.{atlas_state};
ghost use Rattle.cell_births.specs.cell_newborns.Bearing.{IsUnbornContainer};
ghost use Rattle.cell_births.specs.cell_states.Cells.{part_of};
ghost use Rattle.cell_births.specs.page_memory.declared.paged.PagedMemory.{PagedMemory as APagedMemory};
ghost use Rattle.model_copies.specs.Copies.{copied_atlas};
ghost use Rattle.model_copies.specs.model_kernel.State.{AtlasCell, Supply};
ghost use Rattle.cell_copies.specs.Copying.{IsBegun, IsBlankCopy, IsSource, MayCopyPart, MayPlace};

use crate::heads::copy_head;
use act_alone::Head;
use base_types::Entity;
use cell_births::{link, name_container};
use cell_wish_laws::{Part, Storage};
use data_atlas::Atlas;
use data_blocks::ShadowTable;

/// Puts the copy into its place. No page is resident, and none has a block yet.
fn begin(storage: &mut Storage, head: Head)
    requires some { 1 ≤ head.pages }
    requires few { head.pages ≤ 256 }
    ensures begun { IsBegun (Part.Container storage.new) (replicate 256 0) }
    ensures head { storage.new.head ≡ Some head }
{
    storage
        .memory
        .begin(head.tag, head.pages, &ShadowTable::new());
    storage.head = Some(head);
}

/// Gives the pages of a born container these blocks. None is resident then.
fn place(storage: &mut Storage, table: &ShadowTable)
    requires { MayPlace (Part.Container storage.old) table.now.0 }
    ensures begun { IsBegun (Part.Container storage.new) table.now.0 }
    ensures head { storage.new.head ≡ storage.old.head }
{
    let Some(head) = &storage.head else {
        unreachable!()
    };
    storage.memory.begin(head.tag, head.pages, table);
}

/// The same, of a part.
pub(crate) fn place_part(part: &mut Part, table: &ShadowTable)
    requires { MayPlace part.old table.now.0 }
    ensures begun { IsBegun part.new table.now.0 }
    ensures head { (h : AHead) → (m : APagedMemory) → part.old ≡ Part.Container (record { head = Some h; memory = m })
        → (n : APagedMemory) × (part.new ≡ Part.Container (record { head = Some h; memory = n })) }
{
    match part {
        Part::Container(storage) => place(storage, table),
        _ => unreachable!(),
    }
}

fn copy_storage(atlas: &mut Atlas, head: &Head, storage: &mut Storage, number: Entity, fresh: &str)
    requires { MayCopyPart atlas.old head.now number fresh.now }
    ensures atlas { atlas_state atlas.new ≡ copied_atlas (atlas_state atlas.old) fresh.now number head.now.regions }
    ensures blank { IsBlankCopy head.now (Part.Container storage.new) }
{
    let copy = copy_head(head);
    name_container(atlas, fresh);
    link(atlas, number, copy.regions.as_slice());
    begin(storage, copy);
}

fn copy_into(atlas: &mut Atlas, head: &Head, part: &mut Part, number: Entity, fresh: &str)
    requires may { MayCopyPart atlas.old head.now number fresh.now }
    requires unborn { IsUnbornContainer part.old }
    ensures atlas { atlas_state atlas.new ≡ copied_atlas (atlas_state atlas.old) fresh.now number head.now.regions }
    ensures blank { IsBlankCopy head.now part.new }
{
    match part {
        Part::Container(storage) => copy_storage(atlas, head, storage, number, fresh),
        _ => unreachable!(),
    }
}

fn copy_from(atlas: &mut Atlas, source: &Part, part: &mut Part, number: Entity, fresh: &str)
    requires may { (h : AHead) × (from : List ℕ) × IsSource source.now h from × MayCopyPart atlas.old h number fresh.now }
    requires unborn { IsUnbornContainer part.old }
    ensures atlas { (h : AHead) → (from : List ℕ) → IsSource source.now h from → atlas_state atlas.new ≡ copied_atlas (atlas_state atlas.old) fresh.now number h.regions }
    ensures blank { (h : AHead) → (from : List ℕ) → IsSource source.now h from → IsBlankCopy h part.new }
{
    match source {
        Part::Container(
            Storage {
                head: Some(head),
                ..
            },
        ) => copy_into(atlas, head, part, number, fresh),
        _ => unreachable!(),
    }
}

/// What a copy makes of the parts of the atlas and of the newborn.
pub(crate) fn copy_parts(
    atlas: &mut Part,
    source: &Part,
    part: &mut Part,
    number: Entity,
    fresh: &str,
)
    requires may { (d : Directory) × (h : AHead) × (from : List ℕ) × (atlas.old ≡ Part.Atlas d) × IsSource source.now h from × MayCopyPart d h number fresh.now }
    requires unborn { IsUnbornContainer part.old }
    ensures atlas { (d : Directory) → (h : AHead) → (from : List ℕ) → atlas.old ≡ Part.Atlas d → IsSource source.now h from → (s : Supply) → (words : ℕ → List ℕ)
        → part_of s words atlas.new ≡ AtlasCell (copied_atlas (atlas_state d) fresh.now number h.regions) }
    ensures blank { (h : AHead) → (from : List ℕ) → IsSource source.now h from → IsBlankCopy h part.new }
{
    match atlas {
        Part::Atlas(directory) => copy_from(directory, source, part, number, fresh),
        _ => unreachable!(),
    }
}
