// Steps of a locus over the table that write the atlas.
ghost use Rattle.std.specs.Prelude.{◌≡◌, ◌+◌, ◌<◌, ◌≤◌, ◌⊎◌, length};
ghost use Rattle.table_laws.specs.data_atlas_facts.Directory.{Directory, number_born};
ghost use Rattle.table_laws.specs.cell_plans.declared.plans.Reach.TheVariants as reach;
ghost use Rattle.table_laws.specs.Steps.{HasDirectory, IsInOrder, IsPlannedAt, StepsQuietly};
ghost use Rattle.table_laws.specs.Tables.{AreFewWrites};

use base_types::{Entity, Entry, FIRST_LOCUS, Instr, Kind, MOST_CONTAINERS, MOST_LOCI};
use table_laws::{Cell, Part, advance_barren, advance_making, advance_mapping, advance_spawning};

/// A step that maps pages into a container, or unmaps them.
pub(crate) fn go_mapping(cells: &mut [Cell], me: Entity, other: Entity, instr: Instr) -> Entry
    requires order { IsInOrder cells.old }
    requires planned { IsPlannedAt cells.old me instr (reach.Mapping other) }
    requires few { AreFewWrites cells.old }
    ensures { StepsQuietly me cells.old cells.new result }
{
    let (front, back) = cells.split_at_mut(me.number() as usize);
    let (first, rest) = front.split_at_mut(other.number() as usize);
    advance_mapping(&mut back[0], &mut first[0], &mut rest[0], instr)
}

/// How many entities of this kind are born.
fn born_of(cells: &[Cell], kind: Kind) -> u8
    requires order { IsInOrder cells.now }
    ensures { (d : Directory) × HasDirectory cells.now d × (result ≡ number_born d kind) }
{
    match &cells[0].part {
        Part::Atlas(atlas) => atlas.named(kind),
        _ => unreachable!(),
    }
}

/// A step that makes the container with this number, which is the lowest free one.
fn go_making_at(cells: &mut [Cell], me: Entity, newborn: usize, instr: Instr) -> Entry
    requires order { IsInOrder cells.old }
    requires planned { IsPlannedAt cells.old me instr reach.Make }
    requires free { (d : Directory) × HasDirectory cells.old d × (length d.containers < 40) × (newborn ≡ length d.containers + 1) }
    requires few { AreFewWrites cells.old }
    ensures { StepsQuietly me cells.old cells.new result }
{
    let (front, back) = cells.split_at_mut(me.number() as usize);
    let (first, rest) = front.split_at_mut(newborn);
    advance_making(&mut back[0], &mut first[0], &mut rest[0], instr)
}

/// A step that spawns the locus with this number, which is the lowest free one.
fn go_spawning_at(cells: &mut [Cell], me: Entity, newborn: usize, instr: Instr) -> Entry
    requires order { IsInOrder cells.old }
    requires planned { IsPlannedAt cells.old me instr reach.Spawn }
    requires free { (d : Directory) × HasDirectory cells.old d × (length d.loci < 23) × (newborn ≡ length d.loci + 41) }
    requires few { AreFewWrites cells.old }
    ensures { StepsQuietly me cells.old cells.new result }
{
    let (front, back) = cells.split_at_mut(newborn);
    let (first, rest) = front.split_at_mut(me.number() as usize);
    advance_spawning(&mut rest[0], &mut first[0], &mut back[0], instr)
}

/// A step that would make a container or spawn a locus, where no number is free.
fn go_barren(cells: &mut [Cell], me: Entity, instr: Instr) -> Entry
    requires order { IsInOrder cells.old }
    requires wants { (d : Directory) × HasDirectory cells.old d
        × ((IsPlannedAt cells.old me instr reach.Make × (40 ≤ length d.containers)) ⊎ (IsPlannedAt cells.old me instr reach.Spawn × (23 ≤ length d.loci))) }
    requires few { AreFewWrites cells.old }
    ensures { StepsQuietly me cells.old cells.new result }
{
    let (front, back) = cells.split_at_mut(me.number() as usize);
    advance_barren(&mut back[0], &mut front[0], instr)
}

/// A step that makes a container, where a number is free.
pub(crate) fn go_making(cells: &mut [Cell], me: Entity, instr: Instr) -> Entry
    requires order { IsInOrder cells.old }
    requires planned { IsPlannedAt cells.old me instr reach.Make }
    requires few { AreFewWrites cells.old }
    ensures { StepsQuietly me cells.old cells.new result }
{
    let born = born_of(cells, Kind::Container) as usize;
    if born < MOST_CONTAINERS {
        return go_making_at(cells, me, born + 1, instr);
    }
    go_barren(cells, me, instr)
}

/// A step that spawns a locus, where a number is free.
pub(crate) fn go_spawning(cells: &mut [Cell], me: Entity, instr: Instr) -> Entry
    requires order { IsInOrder cells.old }
    requires planned { IsPlannedAt cells.old me instr reach.Spawn }
    requires few { AreFewWrites cells.old }
    ensures { StepsQuietly me cells.old cells.new result }
{
    let born = born_of(cells, Kind::Locus) as usize;
    if born < MOST_LOCI {
        return go_spawning_at(cells, me, born + FIRST_LOCUS as usize, instr);
    }
    go_barren(cells, me, instr)
}
