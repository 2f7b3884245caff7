// The births of one table of a script, over the cells that it touches.
ghost use Rattle.std.specs.Prelude.{◌≡◌, ◌+◌, ℕ, length};
ghost use Rattle.script_types.specs.model_kernel.Scripts.{Script as Tables};
ghost use Rattle.script_types.specs.Rules.{IsScript};
ghost use Rattle.script_types.specs.Scripts.{container_of, locus_of};
ghost use Rattle.cell_births.specs.model_births.Fitting.{Fits};
ghost use Rattle.data_atlas.specs.data_atlas_facts.Directory.{Directory};
ghost use Rattle.cell_births.specs.script_fits.NextTables.{IsNextContainer, IsNextLocus};
ghost use Rattle.cell_births.specs.Bearing.{MayBearContainer, MayBearLocus};
ghost use Rattle.table_steps.specs.table_laws.Steps.{HasDirectory, IsInOrder};
ghost use Rattle.table_steps.specs.table_laws.Tables.{AreFewWrites};
ghost use Rattle.table_births.specs.Births.{BearsQuietly, atlas_state_in};

use base_types::{Entity, Entry, FIRST_LOCUS, Kind};
use cell_births::{Part, bear_container, bear_locus};
use data_atlas::Atlas;
use script_types::{ScriptContainer, ScriptLocus};
use table_steps::Cell;

/// The atlas of a table of cells.
pub fn atlas_of(cells: &[Cell]) -> &Atlas
    requires order { IsInOrder cells.now }
    ensures { HasDirectory cells.now result.now }
{
    match &cells[0].part {
        Part::Atlas(atlas) => atlas,
        _ => unreachable!(),
    }
}

/// The lowest free number of containers.
pub(crate) fn free_container(atlas: &Atlas) -> usize
    ensures { result ≡ length atlas.now.containers + 1 }
{
    atlas.named(Kind::Container) as usize + 1
}

/// The numbers of a locus's host and of the locus, which gets the lowest free one.
pub(crate) fn locus_numbers(atlas: &Atlas, table: &ScriptLocus) -> (usize, usize)
    requires { (host n : ℕ) × MayBearLocus atlas.now (locus_of table.now) host n }
    ensures { MayBearLocus atlas.now (locus_of table.now) result.0 result.1 }
{
    let host = atlas.find(&table.host).unwrap_or(Entity::ATLAS);
    let born = atlas.named(Kind::Locus);
    (host.number() as usize, born as usize + FIRST_LOCUS as usize)
}

/// The birth of a container from its table, under this number.
pub(crate) fn go_container(cells: &mut [Cell], newborn: usize, table: &ScriptContainer) -> Entry
    requires order { IsInOrder cells.old }
    requires few { AreFewWrites cells.old }
    requires may { (d : Directory) × HasDirectory cells.old d × MayBearContainer d (container_of table.now) newborn }
    ensures { (script : Tables) → IsScript script → Fits (atlas_state_in cells.old) script
        → IsNextContainer (atlas_state_in cells.old) script (container_of table.now) → BearsQuietly script cells.old cells.new result }
{
    let (front, back) = cells.split_at_mut(newborn);
    bear_container(&mut front[0], &mut back[0], table)
}

/// The birth of a locus from its table, in this host and under this number.
pub(crate) fn go_locus(
    cells: &mut [Cell],
    host: usize,
    newborn: usize,
    table: &ScriptLocus,
) -> Entry
    requires order { IsInOrder cells.old }
    requires few { AreFewWrites cells.old }
    requires may { (d : Directory) × HasDirectory cells.old d × MayBearLocus d (locus_of table.now) host newborn }
    ensures { (script : Tables) → IsScript script → Fits (atlas_state_in cells.old) script
        → IsNextLocus (atlas_state_in cells.old) script (locus_of table.now) → BearsQuietly script cells.old cells.new result }
{
    let (front, back) = cells.split_at_mut(newborn);
    let (first, rest) = front.split_at_mut(host);
    bear_locus(&mut first[0], &mut rest[0], &mut back[0], table)
}
