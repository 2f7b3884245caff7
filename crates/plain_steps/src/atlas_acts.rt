//! The acts that write the atlas: mappings between containers, and what a program gives birth to.
ghost use Rattle.std.specs.Prelude.{◌≡◌, ◌+◌, ◌-◌, ◌<◌, ◌≤◌, IfOk, OnOk, OnErr, Some, None, find, filter, not, ◌==◌};
ghost use Rattle.std.specs.List.{list_any};
ghost use Rattle.model_kernel.specs.Outcomes.{edge_put, map_refusal as refused, map_region, unmap as unmapped};
ghost use Rattle.model_kernel.specs.State.{Supply, ContainerCell};
ghost use Rattle.model_kernel.specs.Words.{insert_region as inserted, overlaps};
ghost use Rattle.plain_states.specs.EdgeLists.{AreReadyEdges};
ghost use Rattle.plain_states.specs.Born.{AreEdges};
ghost use Rattle.plain_states.specs.Plains.{atlas_of, container_of, edges_of, locus_of};
ghost use Rattle.plain_facts.specs.AtlasActs.{ActedOnBoth, with_regions};

use crate::local_acts::finish;
use base_types::{Answer, Entity, MOST_REGIONS, Region, Reply};
use plain_states::circles::leads;
use plain_states::edges::{count_down, count_up};
use plain_states::{PlainAtlas, PlainContainer, PlainLocus, insert_region};
use std::alloc::AllocError;

// MAPPINGS

/// Whether some page is covered by both.
fn overlap(a: &Region, b: &Region) -> bool
    ensures { result ≡ overlaps a.now b.now }
{
    let a_at = a.at as u32;
    let b_at = b.at as u32;
    a_at < b_at + b.count as u32 && b_at < a_at + a.count as u32
}

fn overlaps_any(region: &Region, regions: &[Region]) -> bool
    ensures { result ≡ list_any (overlaps region.now) regions.now }
{
    for other in regions {
        if overlap(region, other) {
            return true;
        }
    }
    false
}

/// Why a region may not be put into a container, in the order of the checks.
fn map_refusal(
    atlas: &PlainAtlas,
    number: Entity,
    c: &PlainContainer,
    region: &Region,
) -> Option<Reply>
    requires edges { AreReadyEdges atlas.now.edges.items }
    requires target { region.now.target < 41 }
    ensures { (s : Supply) → result ≡ refused (atlas_of atlas.now) number (container_of s c.now) region.now }
{
    if region.at as u32 + region.count as u32 > c.pages as u32 {
        return Some(Reply::NoPage);
    }
    if overlaps_any(region, &c.regions) {
        return Some(Reply::Overlap);
    }
    if leads(&atlas.edges, region.target, number) {
        return Some(Reply::Circle);
    }
    if c.regions.len() >= MOST_REGIONS {
        return Some(Reply::ListFull);
    }
    None
}

/// Puts the region in and counts its edge. On want of memory nothing is changed.
fn add_mapping(
    atlas: &mut PlainAtlas,
    number: Entity,
    c: &mut PlainContainer,
    region: Region,
) -> Result<(), AllocError>
    requires edges { AreEdges atlas.old.edges.items }
    requires few { edges_of atlas.old.edges.items number region.target < 255 }
    ensures atlas { OnOk result (atlas_of atlas.new ≡ edge_put (atlas_of atlas.old) number region.target (edges_of atlas.old.edges.items number region.target + 1)) }
    ensures container { OnOk result ((s : Supply) → container_of s c.new ≡ with_regions (container_of s c.old) (inserted region c.old.regions.items)) }
    ensures atlas_stays { OnErr result (atlas_of atlas.new ≡ atlas_of atlas.old) }
    ensures container_stays { OnErr result ((s : Supply) → container_of s c.new ≡ container_of s c.old) }
    ensures edges { AreEdges atlas.new.edges.items }
{
    let from = number.number();
    let to = region.target.number();
    atlas.edges.reserve(1)?;
    insert_region(&mut c.regions, region)?;
    count_up(&mut atlas.edges, from, to);
    Ok(())
}

/// What map makes of the locus, the atlas and the container. On want of memory nothing is changed.
#[tactic(auto, unfolding(model_kernel::specs::Outcomes::map_region))]
pub fn map(
    l: &mut PlainLocus,
    atlas: &mut PlainAtlas,
    number: Entity,
    c: &mut PlainContainer,
    region: Region,
) -> Result<Answer, AllocError>
    requires place { l.old.place ≤ 128 }
    requires edges { AreReadyEdges atlas.old.edges.items }
    requires target { region.target < 41 }
    requires few { edges_of atlas.old.edges.items number region.target < 255 }
    ensures made { IfOk result (λ answer. (s : Supply) → ActedOnBoth (map_region (locus_of l.old) (atlas_of atlas.old) number (container_of s c.old) region) (locus_of l.new) (atlas_of atlas.new) (ContainerCell (container_of s c.new)) answer) }
    ensures locus_stays { OnErr result (l.new ≡ l.old) }
    ensures atlas_stays { OnErr result (atlas_of atlas.new ≡ atlas_of atlas.old) }
    ensures container_stays { OnErr result ((s : Supply) → container_of s c.new ≡ container_of s c.old) }
    ensures edges { AreEdges atlas.new.edges.items }
{
    if let Some(reply) = map_refusal(atlas, number, c, &region) {
        return Ok(finish(l, reply));
    }
    add_mapping(atlas, number, c, region)?;
    Ok(finish(l, Reply::Ok))
}

/// The region that begins at the page.
fn region_from(regions: &[Region], at: u64) -> Option<Region>
    ensures { result ≡ find (λ r. r.at == at) regions.now }
{
    regions.iter().copied().find(|r| r.at as u64 == at)
}

/// The region that begins at the page is gone.
fn remove_region(regions: &mut Vec<Region>, at: u64)
    ensures { regions.new.items ≡ filter (λ s. not (s.at == at)) regions.old.items }
{
    regions.retain(|s| s.at as u64 != at);
}

/// One region less in the container, and its edge counts one less.
fn remove_mapping(atlas: &mut PlainAtlas, number: Entity, c: &mut PlainContainer, region: Region)
    requires { AreEdges atlas.old.edges.items }
    ensures atlas { atlas_of atlas.new ≡ edge_put (atlas_of atlas.old) number region.target (edges_of atlas.old.edges.items number region.target - 1) }
    ensures container { (s : Supply) → container_of s c.new ≡ with_regions (container_of s c.old) (filter (λ s. not (s.at == region.at)) c.old.regions.items) }
    ensures edges { AreEdges atlas.new.edges.items }
{
    remove_region(&mut c.regions, region.at as u64);
    count_down(&mut atlas.edges, number.number(), region.target.number());
}

/// What unmap makes of the locus, the atlas and the container.
#[tactic(auto, unfolding(model_kernel::specs::Outcomes::unmap))]
pub fn unmap(
    l: &mut PlainLocus,
    atlas: &mut PlainAtlas,
    number: Entity,
    c: &mut PlainContainer,
    at: u64,
) -> Answer
    requires place { l.old.place ≤ 128 }
    requires edges { AreEdges atlas.old.edges.items }
    ensures made { (s : Supply) → ActedOnBoth (unmapped (locus_of l.old) (atlas_of atlas.old) number (container_of s c.old) at) (locus_of l.new) (atlas_of atlas.new) (ContainerCell (container_of s c.new)) result }
    ensures edges { AreEdges atlas.new.edges.items }
{
    let Some(region) = region_from(&c.regions, at) else {
        return finish(l, Reply::NoRegion);
    };
    remove_mapping(atlas, number, c, region);
    finish(l, Reply::Ok)
}
