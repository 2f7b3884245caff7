// Which of the three refusals of a copy comes.
ghost use Rattle.std.specs.Prelude.{◌≡◌, ◌&&◌, is_none, nat_le, nat_lt, not, None, Some};
ghost use Rattle.cell_births.specs.act_calls.Calls.{atlas_state};
ghost use Rattle.script_types.specs.declared.refusals.Why.{Why as AWhy};
ghost use Rattle.model_copies.specs.Copies.{IsCopied, copying};
ghost use Rattle.model_copies.specs.model_kernel.Outcomes.{free_container};
ghost use Rattle.model_copies.specs.model_kernel.Scripts.{container_named, number_of};
ghost use Rattle.model_copies.specs.model_kernel.Soundness.{is_given_name};
ghost use Rattle.model_copies.specs.model_kernel.State.{KernelState, Supply, Text};
ghost use Rattle.model_copies.specs.model_kernel.Steps.{atlas_in};
ghost use Rattle.model_copies.specs.model_sound_states.States.{IsSoundState};
ghost use Rattle.cell_copies.specs.Refusals.{copy_refusal};

use base_types::{Entity, FIRST_CONTAINER, FIRST_LOCUS, Kind, MOST_CONTAINERS};
use data_atlas::{Atlas, is_name};
use script_types::Why;

fn is_container(entity: Entity) -> bool
    ensures { result ≡ (nat_le 1 entity && nat_lt entity 41) }
{
    let number = entity.number();
    number >= FIRST_CONTAINER && number < FIRST_LOCUS
}

/// The number of the container with this name, where one in the atlas has it.
pub fn container_of(atlas: &Atlas, name: &str) -> Option<Entity>
    ensures { result ≡ container_named (atlas_state atlas.now) name.now }
{
    let _born = atlas.named(Kind::Container);
    match atlas.find(name) {
        Some(entity) => {
            if is_container(entity) {
                Some(entity)
            } else {
                None
            }
        }
        None => None,
    }
}

// Whether the text is a name that may be given, and nobody's.
fn is_new_name(atlas: &Atlas, fresh: &str) -> bool
    ensures { result ≡ (is_given_name fresh.now && is_none (number_of (atlas_state atlas.now) fresh.now)) }
{
    let given = is_name(fresh);
    let taken = atlas.find(fresh).is_some();
    given && !taken
}

// Whether a number is left for a container.
fn has_room(atlas: &Atlas) -> bool
    ensures { is_none (free_container (atlas_state atlas.now)) ≡ not result }
{
    (atlas.named(Kind::Container) as usize) < MOST_CONTAINERS
}

/// Why the container of the one name may not be copied under the other, if it may not: Unknown where no container has the name; else Name where
/// the other is none that an entity may be given, or is taken; else NoRoom where 40 containers are born. It goes over the names of the atlas twice.
pub fn refusal_of(atlas: &Atlas, name: &str, fresh: &str) -> Option<Why>
    ensures { result ≡ copy_refusal (atlas_state atlas.now) name.now fresh.now }
{
    if container_of(atlas, name).is_none() {
        return Some(Why::Unknown);
    }
    if !is_new_name(atlas, fresh) {
        return Some(Why::Name);
    }
    if !has_room(atlas) {
        return Some(Why::NoRoom);
    }
    None
}

/// A sound state can be copied from exactly where none of the three holds.
pub fn refusal_law()
    ensures defined { (s : Supply) (v : KernelState) (name fresh : Text) → IsSoundState s v → copy_refusal (atlas_in (v 0).cell) name fresh ≡ None
        → (w : KernelState) × IsCopied name fresh v w }
    ensures refused { (v : KernelState) (name fresh : Text) (why : AWhy) → copy_refusal (atlas_in (v 0).cell) name fresh ≡ Some why
        → copying name fresh v ≡ None }
{}
