ghost use Rattle.std.specs.Prelude.{◌≡◌, ℕ, Some, None, false, true};
ghost use Rattle.base_types.specs.Instructions.{IsInstruction};
ghost use Rattle.model_kernel.specs.Acts.{alone as alone_act, beside as beside_act, beside_and_atlas as atlas_act, bearing as birth_act, allowed as allowed_act, wanted};
ghost use Rattle.model_kernel.specs.Soundness.{IsSoundLocus};
ghost use Rattle.model_kernel.specs.State.{AtlasState, LocusState};
ghost use Rattle.model_acts.specs.Views.{view_of, act_of, seen_by, IsReadyLocus};

use crate::choice::Act;
use crate::reads::{caller, fetch, named_entity, next_container, register};
use crate::refusals::refusal;
use crate::view::LocusView;
use base_types::{Entity, Instr, Kind, Reply};

/// An act that touches the locus alone.
fn alone(instr: Instr, refused: Option<Reply>) -> Act
    ensures { act_of result ≡ alone_act instr refused }
{
    Act {
        instr,
        refused,
        atlas: false,
        other: None,
        newborn: None,
    }
}

/// An act beside another entity.
fn beside(instr: Instr, other: Entity) -> Act
    ensures { act_of result ≡ beside_act instr other }
{
    Act {
        other: Some(other),
        ..alone(instr, None)
    }
}

/// An act beside a container and the atlas.
fn beside_and_atlas(instr: Instr, other: Entity) -> Act
    ensures { act_of result ≡ atlas_act instr other }
{
    Act {
        atlas: true,
        ..beside(instr, other)
    }
}

/// An act that gives birth, and which the atlas names.
fn bearing(instr: Instr, kind: Kind) -> Act
    ensures { act_of result ≡ birth_act instr kind }
{
    Act {
        atlas: true,
        newborn: Some(kind),
        ..alone(instr, None)
    }
}

/// The act of an instruction that the locus alone doesn't refuse.
#[tactic(auto, unfolding(model_kernel::specs::Acts::allowed))]
fn allowed(l: &LocusView, instr: Instr) -> Act
    requires { IsInstruction instr }
    ensures act { act_of result ≡ allowed_act 64 (view_of l.now) instr }
    ensures seen { (me : ℕ) → allowed_act me (view_of l.now) instr ≡ seen_by me (act_of result) }
    ensures instruction { result.instr ≡ instr }
{
    match instr {
        Instr::Load(_, a) => beside(instr, next_container(l, register(l, a))),
        Instr::Store(a, _) => beside(instr, next_container(l, register(l, a))),
        Instr::Invoke(c) => beside(instr, named_entity(l, c)),
        Instr::Leave(c) => beside(instr, named_entity(l, c)),
        Instr::Return => beside(instr, caller(l)),
        Instr::Map(d, ..) => beside_and_atlas(instr, named_entity(l, d)),
        Instr::Unmap(d, _) => beside_and_atlas(instr, named_entity(l, d)),
        Instr::Take(_, c, _) => beside(instr, named_entity(l, c)),
        Instr::Give(_, c, ..) => beside(instr, named_entity(l, c)),
        Instr::Make(..) => bearing(instr, Kind::Container),
        Instr::Spawn(..) => bearing(instr, Kind::Locus),
        Instr::Stop(c) => beside(instr, named_entity(l, c)),
        Instr::Go(c) => beside(instr, named_entity(l, c)),
        Instr::Snap(c) => beside(instr, named_entity(l, c)),
        Instr::Set(..) | Instr::Copy(..) | Instr::Add(..) | Instr::Sub(..) => alone(instr, None),
        Instr::Jump(_) | Instr::Jz(..) | Instr::Print(_) | Instr::Halt => alone(instr, None),
        Instr::Lmap(..) | Instr::Lunmap(_) | Instr::Drop(_) | Instr::Stabilise(_) => {
            alone(instr, None)
        }
    }
}

/// The act that a locus wants. What its capability names is the other entity also where it is the locus itself.
#[tactic(auto, unfolding(model_kernel::specs::Acts::wanted))]
pub fn wants(l: &LocusView) -> Act
    requires { IsReadyLocus (view_of l.now) }
    ensures act { act_of result ≡ wanted 64 (view_of l.now) }
    ensures seen { (me : ℕ) → wanted me (view_of l.now) ≡ seen_by me (act_of result) }
    ensures instruction { IsInstruction result.instr }
{
    let instr = fetch(l);
    match refusal(l, instr) {
        Some(reply) => alone(instr, Some(reply)),
        None => allowed(l, instr),
    }
}

/// A sound locus meets what the choice of its act rests on.
pub fn sound_loci_are_ready()
    ensures { (a : AtlasState) (l : LocusState) → IsSoundLocus a l → IsReadyLocus l }
{}
