// Regions of a container, and the edges that count them.
ghost use Rattle.std.specs.Prelude.{◌≡◌, ℕ, ◌+◌, ◌<◌, ◌≤◌, ◌==◌, Some, None, count_by};
ghost use Rattle.act_invoke.specs.model_kernel.Acts.{wanted};
ghost use Rattle.act_invoke.specs.model_kernel.Outcomes.{outcome, map_region, unmap as unmapping};
ghost use Rattle.act_invoke.specs.model_kernel.Refusals.{instr_at};
ghost use Rattle.act_invoke.specs.model_kernel.State.{Supply, ContainerCell};
ghost use Rattle.data_atlas.specs.data_atlas_facts.Directory.{edges_of, IsBornContainer};
ghost use Rattle.act_invoke.specs.model_acts.Views.{IsReadyLocus};
ghost use Rattle.act_invoke.specs.act_alone.Loci.{locus_of, container_with};
ghost use Rattle.act_invoke.specs.Entries.{WantsBeside};
ghost use Rattle.act_calls.specs.Calls.{is_map, is_unmap, atlas_state, NamesBorn, AtlasCallMade};

use crate::replies::reply_with;
use act_invoke::{Head, Locus, new_region};
use base_types::{Entity, Instr, Region, Reply};
use data_atlas::Atlas;

fn map_into(
    locus: &mut Locus,
    atlas: &mut Atlas,
    number: Entity,
    into: &mut Head,
    region: Region,
) -> Reply
    requires some { 1 ≤ region.count }
    requires at { region.at + region.count ≤ 256 }
    requires from { region.from + region.count ≤ 256 }
    requires number { IsBornContainer atlas.old number }
    requires target { IsBornContainer atlas.old region.target }
    requires counted { (y : ℕ) → edges_of atlas.old number y ≡ count_by (λ r. r.target == y) into.old.regions }
    requires place { locus.old.place < 128 }
    ensures { (words : ℕ → ℕ) → AtlasCallMade (map_region (locus_of locus.old) (atlas_state atlas.old) number (container_with words into.old) region)
        (locus_of locus.new) result (atlas_state atlas.new) (Some (ContainerCell (container_with words into.new))) None }
{
    if region.at as u16 + region.count > into.pages {
        return reply_with(locus, Reply::NoPage);
    }
    if into.regions.overlaps(&region) {
        return reply_with(locus, Reply::Overlap);
    }
    if atlas.closes_circle(number, region.target) {
        return reply_with(locus, Reply::Circle);
    }
    if into.regions.is_full() {
        return reply_with(locus, Reply::ListFull);
    }
    let _linked = atlas.link(number, region.target);
    let _added = into.regions.add(region);
    reply_with(locus, Reply::Ok)
}

/// Makes a region in the container with this number, and counts its edge. NoPage where the region goes past the
/// container's pages, then Overlap, Circle, and ListFull where there are 16 regions.
#[tactic(auto, using(act_invoke::proofs::Entered::operands))]
pub fn map(
    locus: &mut Locus,
    atlas: &mut Atlas,
    number: Entity,
    into: &mut Head,
    instr: Instr,
) -> Reply
    requires ready { IsReadyLocus (locus_of locus.old) }
    requires instr { instr ≡ instr_at (locus_of locus.old) }
    requires wants { WantsBeside is_map (locus_of locus.old) number }
    requires number { IsBornContainer atlas.old number }
    requires caps { NamesBorn atlas.old locus.old.caps }
    requires counted { (y : ℕ) → edges_of atlas.old number y ≡ count_by (λ r. r.target == y) into.old.regions }
    ensures { (me : ℕ) → (s : Supply) → (words : ℕ → ℕ)
        → AtlasCallMade (outcome s (locus_of locus.old) (wanted me (locus_of locus.old)) (atlas_state atlas.old) (ContainerCell (container_with words into.old)))
        (locus_of locus.new) result (atlas_state atlas.new) (Some (ContainerCell (container_with words into.new))) None }
{
    match instr {
        Instr::Map(_, a, c, b, n, rights) => {
            let region = new_region(&locus.view(), a, c, b, n, rights);
            map_into(locus, atlas, number, into, region)
        }
        _ => unreachable!(),
    }
}

fn unmap_at(
    locus: &mut Locus,
    atlas: &mut Atlas,
    number: Entity,
    from: &mut Head,
    page: u64,
) -> Reply
    requires counted { (y : ℕ) → edges_of atlas.old number y ≡ count_by (λ r. r.target == y) from.old.regions }
    requires place { locus.old.place < 128 }
    ensures { (words : ℕ → ℕ) → AtlasCallMade (unmapping (locus_of locus.old) (atlas_state atlas.old) number (container_with words from.old) page)
        (locus_of locus.new) result (atlas_state atlas.new) (Some (ContainerCell (container_with words from.new))) None }
{
    let Ok(region) = from.regions.remove(page) else {
        return reply_with(locus, Reply::NoRegion);
    };
    atlas.unlink(number, region.target);
    reply_with(locus, Reply::Ok)
}

/// Takes out the region that begins at the named page of the container, and one count of its edge. NoRegion where
/// none begins there.
#[tactic(auto, using(act_invoke::proofs::Entered::operands))]
pub fn unmap(
    locus: &mut Locus,
    atlas: &mut Atlas,
    number: Entity,
    from: &mut Head,
    instr: Instr,
) -> Reply
    requires ready { IsReadyLocus (locus_of locus.old) }
    requires instr { instr ≡ instr_at (locus_of locus.old) }
    requires wants { WantsBeside is_unmap (locus_of locus.old) number }
    requires counted { (y : ℕ) → edges_of atlas.old number y ≡ count_by (λ r. r.target == y) from.old.regions }
    ensures { (me : ℕ) → (s : Supply) → (words : ℕ → ℕ)
        → AtlasCallMade (outcome s (locus_of locus.old) (wanted me (locus_of locus.old)) (atlas_state atlas.old) (ContainerCell (container_with words from.old)))
        (locus_of locus.new) result (atlas_state atlas.new) (Some (ContainerCell (container_with words from.new))) None }
{
    match instr {
        Instr::Unmap(_, a) => {
            let page = locus.register(a);
            unmap_at(locus, atlas, number, from, page)
        }
        _ => unreachable!(),
    }
}
