//! What may be committed next.
ghost use Rattle.std.specs.Prelude.{◌≡◌, ◌<◌, ◌^◌, ◌↔◌, ℕ, Bool, IsTrue, Some};
ghost use Rattle.plain_states.specs.model_kernel.Histories.{Policy as AnyPolicy, MayCommit, Run, every_of, has_wish as model_wish};
ghost use Rattle.plain_states.specs.model_kernel.Scripts.{Script};
ghost use Rattle.plain_states.specs.model_kernel.State.{Supply};
ghost use Rattle.plain_states.specs.Plains.{cells_of};
ghost use Rattle.trace_step_facts.specs.Recording.{first_changed};
ghost use Rattle.trace_steps.specs.Standing.{Keeps};

use crate::checker::Checker;
use base_types::{Entity, FIRST_CONTAINER, FIRST_LOCUS, Kind};
use plain_states::Plain;

/// The interval of an entity's snapshots, 0 where it is not born. The atlas's is 1.
pub fn every_at(state: &Plain, entity: Entity) -> u32
    ensures { (s : Supply) → every_of (cells_of s state.now entity) ≡ result }
{
    match entity.kind() {
        Kind::Atlas => 1,
        Kind::Container => {
            match state
                .containers
                .get((entity.number() - FIRST_CONTAINER) as usize)
            {
                Some(container) => container.every,
                None => 0,
            }
        }
        Kind::Locus => {
            match state.loci.get((entity.number() - FIRST_LOCUS) as usize) {
                Some(locus) => locus.every,
                None => 0,
            }
        }
    }
}

/// Whether the entity has an open wish.
pub fn has_wish<P: Fn(u32, u64) -> bool>(checker: &Checker, entity: Entity, policy: &P) -> bool
    ghost p: { AnyPolicy }
    requires callable { (every since : ℕ) → every < 2 ^ 32 → since < 2 ^ 64 → P.pre policy.now every since }
    requires answers { (every since : ℕ) (r : Bool) → every < 2 ^ 32 → since < 2 ^ 64 → P.post policy.now every since r → r ≡ p every since }
    ensures { (s : Supply) (script : Script) (r : Run) → Keeps s script r checker.now → model_wish p r entity ≡ result }
{
    let x = entity.number() as usize;
    let every = every_at(&checker.state, entity);
    checker
        .wishes
        .is_open(x, every, checker.versions[x], policy)
}

/// The first entity that has changed since its newest commit.
fn next_changed(newest: &[u64; 64], versions: &[u64; 64]) -> Option<Entity>
    ensures { result ≡ first_changed newest.now versions.now }
{
    for x in 0..64u8 {
        if newest[x as usize] < versions[x as usize] {
            return Some(Entity::of(x));
        }
    }
    None
}

/// Whether the entity is the first that has changed.
fn is_next_changed(newest: &[u64; 64], versions: &[u64; 64], entity: Entity) -> bool
    ensures { IsTrue result ↔ (first_changed newest.now versions.now ≡ Some entity) }
{
    match next_changed(newest, versions) {
        Some(x) => x.number() == entity.number(),
        None => false,
    }
}

/// Whether a commit of the entity may be next.
pub fn may_commit<P: Fn(u32, u64) -> bool>(checker: &Checker, entity: Entity, policy: &P) -> bool
    ghost p: { AnyPolicy }
    requires callable { (every since : ℕ) → every < 2 ^ 32 → since < 2 ^ 64 → P.pre policy.now every since }
    requires answers { (every since : ℕ) (r : Bool) → every < 2 ^ 32 → since < 2 ^ 64 → P.post policy.now every since r → r ≡ p every since }
    ensures { (s : Supply) (script : Script) (r : Run) → Keeps s script r checker.now → IsTrue result ↔ MayCommit p r entity }
{
    match checker.owed {
        None => {
            let full = checker.wishes.full[entity.number() as usize];
            has_wish(checker, entity, policy) && !full
        }
        Some(_) => is_next_changed(&checker.wishes.newest, &checker.versions, entity),
    }
}
