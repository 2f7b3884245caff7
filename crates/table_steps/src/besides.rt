// Steps of a locus over the table that touch it alone, or it and one other entity without a look.
ghost use Rattle.std.specs.Prelude.{◌<◌};
ghost use Rattle.table_laws.specs.cell_plans.declared.plans.Reach.TheVariants as reach;
ghost use Rattle.table_laws.specs.Steps.{IsInOrder, IsPlannedAt, StepsQuietly};
ghost use Rattle.table_laws.specs.Tables.{AreFewWrites};

use base_types::{Entity, Entry, Instr};
use table_laws::{Act, Cell, advance_alone, advance_beside};

/// A step by this act, which touches the locus alone.
pub(crate) fn go_alone(cells: &mut [Cell], me: Entity, act: Act) -> Entry
    requires order { IsInOrder cells.old }
    requires planned { IsPlannedAt cells.old me act.instr (reach.Alone act) }
    requires few { AreFewWrites cells.old }
    ensures { StepsQuietly me cells.old cells.new result }
{
    advance_alone(&mut cells[me.number() as usize], act)
}

/// A step beside an entity with a lower number.
fn go_beside_lower(cells: &mut [Cell], me: Entity, other: Entity, instr: Instr) -> Entry
    requires order { IsInOrder cells.old }
    requires planned { IsPlannedAt cells.old me instr (reach.Beside other) }
    requires few { AreFewWrites cells.old }
    requires lower { other < me }
    ensures { StepsQuietly me cells.old cells.new result }
{
    let (front, back) = cells.split_at_mut(me.number() as usize);
    advance_beside(&mut back[0], &mut front[other.number() as usize], instr)
}

/// A step beside an entity with a higher number.
fn go_beside_higher(cells: &mut [Cell], me: Entity, other: Entity, instr: Instr) -> Entry
    requires order { IsInOrder cells.old }
    requires planned { IsPlannedAt cells.old me instr (reach.Beside other) }
    requires few { AreFewWrites cells.old }
    requires higher { me < other }
    ensures { StepsQuietly me cells.old cells.new result }
{
    let (front, back) = cells.split_at_mut(other.number() as usize);
    advance_beside(&mut front[me.number() as usize], &mut back[0], instr)
}

/// A step beside another entity, which is neither a look nor a mapping.
pub(crate) fn go_beside(cells: &mut [Cell], me: Entity, other: Entity, instr: Instr) -> Entry
    requires order { IsInOrder cells.old }
    requires planned { IsPlannedAt cells.old me instr (reach.Beside other) }
    requires few { AreFewWrites cells.old }
    ensures { StepsQuietly me cells.old cells.new result }
{
    if other.number() < me.number() {
        return go_beside_lower(cells, me, other, instr);
    }
    go_beside_higher(cells, me, other, instr)
}
