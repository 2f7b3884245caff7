// What a locus's step touches.
ghost use Rattle.std.specs.Prelude.{◌≡◌, ◌&&◌, ◌==◌, ℕ, None, Some, IfErr, IfOk, List};
ghost use Rattle.base_types.specs.declared.instructions.Condition.TheVariants.{Running as RunningNow};
ghost use Rattle.act_look.specs.model_kernel.Refusals.{instr_at};
ghost use Rattle.act_look.specs.model_kernel.State.{LocusState, Supply};
ghost use Rattle.act_look.specs.model_acts.Views.{may_name_itself, IsReadyLocus};
ghost use Rattle.act_look.specs.act_alone.Loci.{WantsAct, locus_of};
ghost use Rattle.act_look.specs.act_alone.declared.loci.Locus.{Locus as ALocus};
ghost use Rattle.cell_calls.specs.Besides.{WantsOther};
ghost use Rattle.cell_calls.specs.cell_states.Cells.{part_of, IsRunning};
ghost use Rattle.cell_plans.specs.Plans.{idle_of, BearsNone, IsPlanned, PlansFor};

use crate::idle::{Idle, why_idle};
use act_look::{Act, Locus};
use base_types::{Entity, Instr};
use cell_calls::{Cell, Part};

/// The next step of a locus: its instruction, and what it touches besides the locus.
#[derive(Clone, Copy, Debug)]
pub struct Plan {
    pub instr: Instr,
    pub reach: Reach,
}

/// What a step of a locus touches besides the locus.
#[derive(Clone, Copy, Debug)]
pub enum Reach {
    /// Nothing, by this act.
    Alone(Act),
    /// Another entity, by an instruction that is neither a look nor a mapping.
    Beside(Entity),
    /// A container, of which a word may be looked at.
    Look(Entity),
    /// The atlas and a container.
    Mapping(Entity),
    /// The atlas and the container with the lowest free number, if there is one.
    Make,
    /// The atlas and the locus with the lowest free number, if there is one.
    Spawn,
}

/// Whether the instruction may name the locus that carries it out.
fn names_itself(instr: Instr) -> bool
    ensures { result ≡ may_name_itself instr }
{
    matches!(instr, Instr::Stop(_) | Instr::Go(_) | Instr::Snap(_))
}

/// Whether the act is on the locus itself.
fn is_itself(me: Entity, instr: Instr, other: Entity) -> bool
    ensures { result ≡ (may_name_itself instr && other == me) }
{
    names_itself(instr) && other.number() == me.number()
}

/// What an act beside an entity touches.
fn reach_beside(me: Entity, act: Act, other: Entity) -> Reach
    ensures { (l : LocusState) → WantsAct l act → WantsOther l act.instr other → PlansFor me l act.instr result }
{
    if is_itself(me, act.instr, other) {
        return Reach::Alone(act);
    }
    match act.instr {
        Instr::Load(..) => Reach::Look(other),
        Instr::Store(..) => Reach::Look(other),
        Instr::Map(..) => Reach::Mapping(other),
        Instr::Unmap(..) => Reach::Mapping(other),
        _ => Reach::Beside(other),
    }
}

/// What an act beside no entity touches.
fn reach_alone(me: Entity, act: Act) -> Reach
    ensures { (l : LocusState) → WantsAct l act → BearsNone l act.instr → PlansFor me l act.instr result }
{
    match act.instr {
        Instr::Make(..) => Reach::Make,
        Instr::Spawn(..) => Reach::Spawn,
        _ => Reach::Alone(act),
    }
}

/// The next step of a running locus, by the act that it wants.
fn plan_by_act(me: Entity, locus: &Locus) -> Plan
    requires running { locus.now.condition ≡ RunningNow }
    requires ready { IsReadyLocus (locus_of locus.now) }
    ensures instr { result.instr ≡ instr_at (locus_of locus.now) }
    ensures wants { PlansFor me (locus_of locus.now) result.instr result.reach }
{
    let act = locus.wants();
    let instr = act.instr;
    if act.refused.is_some() {
        return Plan {
            instr,
            reach: Reach::Alone(act),
        };
    }
    match act.other {
        Some(other) => Plan {
            instr,
            reach: reach_beside(me, act, other),
        },
        None => Plan {
            instr,
            reach: reach_alone(me, act),
        },
    }
}

/// The next step of a running locus. Where the instruction tells the act by itself, nothing else is read.
fn plan_of(me: Entity, locus: &Locus) -> Plan
    requires running { locus.now.condition ≡ RunningNow }
    requires ready { IsReadyLocus (locus_of locus.now) }
    ensures instr { result.instr ≡ instr_at (locus_of locus.now) }
    ensures wants { PlansFor me (locus_of locus.now) result.instr result.reach }
{
    match locus.wants_plainly() {
        Some(plain) => Plan {
            instr: plain.instr,
            reach: Reach::Alone(plain),
        },
        None => plan_by_act(me, locus),
    }
}

/// The next step of a cell's running locus.
fn plan_running(cell: &Cell) -> Plan
    requires { (l : ALocus) × IsRunning cell.now.part l }
    ensures { (l : ALocus) × IsRunning cell.now.part l × (result.instr ≡ instr_at (locus_of l)) × PlansFor cell.now.clock.entity (locus_of l) result.instr result.reach }
{
    match &cell.part {
        Part::Locus(Some(locus)) => plan_of(cell.clock.entity, locus),
        _ => unreachable!(),
    }
}

/// The next step of the cell's locus, or why it makes none. It looks at the locus alone.
pub fn next_plan(cell: &Cell) -> Result<Plan, Idle>
    requires ready { (l : ALocus) → cell.now.part ≡ Part.Locus (Some l) → IsReadyLocus (locus_of l) }
    ensures idle { (s : Supply) → (words : ℕ → List ℕ) → IfErr result (λ why. idle_of cell.now.left (part_of s words cell.now.part) ≡ Some why) }
    ensures goes { (s : Supply) → (words : ℕ → List ℕ) → IfOk result (λ _. idle_of cell.now.left (part_of s words cell.now.part) ≡ None) }
    ensures plans { IfOk result (λ p. IsPlanned cell.now p.instr p.reach) }
{
    match why_idle(cell) {
        Some(why) => Err(why),
        None => Ok(plan_running(cell)),
    }
}
