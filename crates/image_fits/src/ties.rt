//! Whether what a container or a locus names is born.
ghost use Rattle.std.specs.Prelude.{◌≡◌, ◌&&◌, ◌↔◌, IsTrue};
ghost use Rattle.std.specs.List.{list_all};
ghost use Rattle.act_alone.specs.model_kernel.Refusals.{instr_at};
ghost use Rattle.act_alone.specs.model_kernel.Soundness.{is_born_container as born_container, looks as looks_at};
ghost use Rattle.image_fit_facts.specs.image_meaning.Fits.{IsTiedContainer, IsTiedLocus};
ghost use Rattle.blob_atlas.specs.act_calls.Calls.{atlas_state};
ghost use Rattle.act_alone.specs.Loci.{container_with, locus_of};
ghost use Rattle.image_fits.specs.Chosen.{no_words};
ghost use Rattle.image_fit_facts.specs.Ties.{IsTiedWalk};

use crate::born::{are_born, is_born_container};
use act_alone::{Head, Locus};
use base_types::{Call, Instr, Private, Region};
use data_atlas::Atlas;

// Whether each region shows a container that is born.
fn all_shown(atlas: &Atlas, regions: &[Region]) -> bool
    ensures { result ≡ list_all (λ r. born_container (atlas_state atlas.now) r.target) regions.now }
{
    regions
        .iter()
        .all(|region| is_born_container(atlas, region.target))
}

/// Whether each region of the container shows a container that is born, and each capability names an entity that is.
pub fn ties_container(atlas: &Atlas, head: &Head) -> bool
    ensures { IsTrue result ↔ IsTiedContainer (atlas_state atlas.now) (container_with no_words head.now) }
{
    let shown = all_shown(atlas, head.regions.as_slice());
    let named = are_born(atlas, &head.caps);
    shown & named
}

// Whether each call is of a container that is born.
fn all_called(atlas: &Atlas, calls: &[Call]) -> bool
    ensures { result ≡ list_all (λ c. born_container (atlas_state atlas.now) c.container) calls.now }
{
    calls
        .iter()
        .all(|call| is_born_container(atlas, call.container))
}

// Whether each private region was made in a container that is born, and shows one.
fn all_private(atlas: &Atlas, privates: &[Private]) -> bool
    ensures { result ≡ list_all (λ p. born_container (atlas_state atlas.now) p.made && born_container (atlas_state atlas.now) p.region.target) privates.now }
{
    privates.iter().all(|private| {
        is_born_container(atlas, private.made) && is_born_container(atlas, private.region.target)
    })
}

// Whether the instruction loads or stores.
fn looks(instr: Instr) -> bool
    ensures { result ≡ looks_at instr }
{
    matches!(instr, Instr::Load(..) | Instr::Store(..))
}

// The instruction at the place of the locus, Halt past its code.
fn instr_of(locus: &Locus) -> Instr
    ensures { result ≡ instr_at (locus_of locus.now) }
{
    match locus.code.as_slice().get(locus.place as usize) {
        Some(instr) => *instr,
        None => Instr::Halt,
    }
}

// Whether the walk of the locus, if there is one, is at a container that is born, and the locus's instruction looks.
fn ties_walk(atlas: &Atlas, locus: &Locus) -> bool
    ensures { IsTrue result ↔ IsTiedWalk (atlas_state atlas.now) (locus_of locus.now) }
{
    match locus.walk {
        Some(walk) => is_born_container(atlas, walk.at) && looks(instr_of(locus)),
        None => true,
    }
}

/// Whether what the locus names is born and of the right kind: its host, the containers of its calls, of its private regions and
/// of its walk, and the entities of its capabilities; and whether a locus with a walk is at a load or a store.
pub fn ties_locus(atlas: &Atlas, locus: &Locus) -> bool
    ensures { IsTrue result ↔ IsTiedLocus (atlas_state atlas.now) (locus_of locus.now) }
{
    let hosted = is_born_container(atlas, locus.host);
    let called = all_called(atlas, locus.chain.as_slice());
    let private = all_private(atlas, locus.privates.as_slice());
    let named = are_born(atlas, &locus.caps);
    let walking = ties_walk(atlas, locus);
    hosted & called & private & named & walking
}
