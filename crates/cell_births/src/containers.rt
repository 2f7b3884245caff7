// The birth of a container from its table, on the parts of two cells.
ghost use Rattle.std.specs.Prelude.{◌≡◌, ◌≤◌, ◌<◌, ◌+◌, ◌++◌, ◌∷◌, [], ℕ, List, All, IsTrue, count_by, length, if◌then◌else◌, ◌==◌, None, Some, string_bytes};
ghost use Rattle.base_types.specs.declared.capabilities.Region.{Region as ARegion};
ghost use Rattle.script_types.specs.model_kernel.Births.{container_from as container_by, edges_from as edges_by, with_container_name};
ghost use Rattle.script_types.specs.model_kernel.Outcomes.{supplied};
ghost use Rattle.script_types.specs.model_kernel.Scripts.{number_in, number_of};
ghost use Rattle.script_types.specs.model_kernel.Soundness.{is_given_name};
ghost use Rattle.script_types.specs.model_kernel.State.{AtlasState, AtlasCell, ContainerCell, Supply, Text};
ghost use Rattle.script_types.specs.Rules.{IsContainerTable};
ghost use Rattle.script_types.specs.Scripts.{container_of as table_of};
ghost use Rattle.data_atlas.specs.data_atlas_facts.Directory.{Directory, edges_of};
ghost use Rattle.act_alone.specs.Loci.{container_with};
ghost use Rattle.script_fits.specs.act_calls.Calls.{atlas_state};
ghost use Rattle.cell_wish_laws.specs.cell_states.Cells.{part_of};
ghost use Rattle.cell_newborns.specs.Bearing.{IsNewContainer, IsUnbornContainer};
ghost use Rattle.cell_births.specs.Bearing.{MayBearContainer};

use crate::tables::{caps_from, regions_from};
use act_alone::Head;
use base_types::{Entity, Kind, Region};
use cell_wish_laws::{Part, Storage};
use data_atlas::Atlas;
use data_blocks::ShadowTable;
use script_types::ScriptContainer;

/// The container of a table.
fn head_from(atlas: &Atlas, newborn: Entity, table: &ScriptContainer) -> Head
    requires { (earlier : List Text) × IsContainerTable earlier (table_of table.now) }
    ensures container { (s : Supply) → container_with (supplied s table.now.tag) result ≡ container_by s (number_in (atlas_state atlas.now) (string_bytes table.now.name) newborn) (table_of table.now) }
    ensures tag { result.tag ≡ table.now.tag }
    ensures pages { result.pages ≡ table.now.pages }
{
    let mut head = Head::new(
        table.pages,
        table.tag,
        table.every,
        table.entry,
        &table.code,
    );
    head.regions = regions_from(atlas, &table.name, newborn, &table.regions);
    head.caps = caps_from(atlas, &table.name, newborn, &table.caps);
    head
}

/// Gives the newborn its name. Costs what a birth in the atlas costs.
pub fn name_container(atlas: &mut Atlas, name: &str)
    requires given { IsTrue (is_given_name name.now) }
    requires fresh { number_of (atlas_state atlas.old) name.now ≡ None }
    requires free { length atlas.old.containers < 40 }
    ensures { atlas.new ≡ record atlas.old { containers = atlas.old.containers ++ name.now ∷ [] } }
{
    let _ = atlas.birth(Some(name), Kind::Container);
}

/// Counts an edge from the newborn for each of its regions.
pub fn link(atlas: &mut Atlas, newborn: Entity, regions: &[Region])
    requires newborn { (1 ≤ newborn) × (newborn ≤ 40) }
    requires few { length regions.now ≤ 16 }
    requires targets { All (λ (r : ARegion). (1 ≤ r.target) × (r.target ≤ 40)) regions.now }
    requires unlinked { (y : ℕ) → edges_of atlas.old newborn y ≡ 0 }
    ensures names { (atlas.new.containers ≡ atlas.old.containers) × (atlas.new.loci ≡ atlas.old.loci) }
    ensures counts { (x y : ℕ) → edges_of atlas.new x y ≡ edges_of atlas.old x y + (if x == newborn then count_by (λ r. r.target == y) regions.now else 0) }
{
    for region in regions {
        let target = region.target;
        let count = atlas.count(newborn, target);
        atlas.set_count(newborn, target, count + 1);
    }
}

/// Puts a new container into its place. No page is resident, and none has a block.
fn begin(storage: &mut Storage, head: Head)
    requires some { 1 ≤ head.pages }
    requires few { head.pages ≤ 256 }
    ensures cell { (s : Supply) → (words : ℕ → List ℕ) → part_of s words (Part.Container storage.new) ≡ ContainerCell (container_with (supplied s head.tag) head) }
    ensures memory { IsNewContainer (Part.Container storage.new) }
{
    storage
        .memory
        .begin(head.tag, head.pages, &ShadowTable::new());
    storage.head = Some(head);
}

fn bear_storage(atlas: &mut Atlas, storage: &mut Storage, newborn: Entity, table: &ScriptContainer)
    requires { MayBearContainer atlas.old (table_of table.now) newborn }
    ensures atlas { atlas_state atlas.new ≡ edges_by (number_in (atlas_state atlas.old) (string_bytes table.now.name) newborn) newborn (table_of table.now).regions (with_container_name (atlas_state atlas.old) (string_bytes table.now.name)) }
    ensures cell { (s : Supply) → (words : ℕ → List ℕ) → part_of s words (Part.Container storage.new) ≡ ContainerCell (container_by s (number_in (atlas_state atlas.old) (string_bytes table.now.name) newborn) (table_of table.now)) }
    ensures memory { IsNewContainer (Part.Container storage.new) }
{
    let head = head_from(atlas, newborn, table);
    name_container(atlas, &table.name);
    link(atlas, newborn, head.regions.as_slice());
    begin(storage, head);
}

fn bear_part(atlas: &mut Atlas, part: &mut Part, newborn: Entity, table: &ScriptContainer)
    requires may { MayBearContainer atlas.old (table_of table.now) newborn }
    requires unborn { IsUnbornContainer part.old }
    ensures atlas { atlas_state atlas.new ≡ edges_by (number_in (atlas_state atlas.old) (string_bytes table.now.name) newborn) newborn (table_of table.now).regions (with_container_name (atlas_state atlas.old) (string_bytes table.now.name)) }
    ensures cell { (s : Supply) → (words : ℕ → List ℕ) → part_of s words part.new ≡ ContainerCell (container_by s (number_in (atlas_state atlas.old) (string_bytes table.now.name) newborn) (table_of table.now)) }
    ensures memory { IsNewContainer part.new }
{
    match part {
        Part::Container(storage) => bear_storage(atlas, storage, newborn, table),
        _ => unreachable!(),
    }
}

/// What the birth of a container makes of the parts of two cells.
pub(crate) fn bear_in_parts(
    atlas: &mut Part,
    part: &mut Part,
    newborn: Entity,
    table: &ScriptContainer,
)
    requires may { (d : Directory) × (atlas.old ≡ Part.Atlas d) × MayBearContainer d (table_of table.now) newborn }
    requires unborn { IsUnbornContainer part.old }
    ensures atlas { (s : Supply) → (words : ℕ → List ℕ) → (a : AtlasState) → part_of s words atlas.old ≡ AtlasCell a
        → part_of s words atlas.new ≡ AtlasCell (edges_by (number_in a (string_bytes table.now.name) newborn) newborn (table_of table.now).regions (with_container_name a (string_bytes table.now.name))) }
    ensures cell { (s : Supply) → (words : ℕ → List ℕ) → (a : AtlasState) → part_of s words atlas.old ≡ AtlasCell a
        → part_of s words part.new ≡ ContainerCell (container_by s (number_in a (string_bytes table.now.name) newborn) (table_of table.now)) }
    ensures memory { IsNewContainer part.new }
{
    match atlas {
        Part::Atlas(directory) => bear_part(directory, part, newborn, table),
        _ => unreachable!(),
    }
}
