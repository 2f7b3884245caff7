ghost use Rattle.std.specs.Prelude.{◌≡◌, ◌↔◌, ℕ, IsTrue, ◌==◌, ◌<◌, ◌≤◌, if◌then◌else◌, count_by, All};
ghost use Rattle.base_types.specs.declared.capabilities.Region.{Region as AnyRegion};
ghost use Rattle.data_atlas.specs.data_atlas_facts.Directory.{edges_of, IsBornContainer};

use base_types::{Entity, Region};
use data_atlas::Atlas;
use data_regions::RegionMap;

fn one_if_shown(region: Region, target: Entity) -> u8
    ensures shown { result ≡ (if region.target == target then 1 else 0) }
    ensures small { result ≤ 1 }
{
    if region.target == target { 1 } else { 0 }
}

/// How many of the regions show the entity.
#[tactic(auto, using(crate::proofs::EdgeLemmas::one_more))]
fn shown(regions: &RegionMap<16>, target: Entity) -> u8
    ensures { result ≡ count_by (λ r. r.target == target) regions.now }
{
    let _full = regions.is_full();
    let mut count = 0;
    for place in 0..16 {
        let Some(region) = regions.get(place) else {
            return count;
        };
        count += one_if_shown(region, target);
    }
    count
}

/// Each of the regions shows an entity, whose number is below 64 by its type.
fn targets_are_entities(regions: &RegionMap<16>)
    ensures { All (λ (r : AnyRegion). r.target < 64) regions.now }
{
    let _full = regions.is_full();
    for place in 0..16 {
        let Some(region) = regions.get(place) else {
            return;
        };
        let _number = region.target.number();
    }
}

/// Whether the edge to this number is that of the regions.
fn is_counted_to(atlas: &Atlas, number: Entity, regions: &RegionMap<16>, target: u8) -> bool
    requires { target < 64 }
    ensures { IsTrue result ↔ (edges_of atlas.now number target ≡ count_by (λ r. r.target == target) regions.now) }
{
    match Entity::new(target) {
        Some(target) => atlas.count(number, target) == shown(regions, target),
        None => false,
    }
}

/// Whether the edges of the container are those of its regions.
pub fn is_counted(atlas: &Atlas, number: Entity, regions: &RegionMap<16>) -> bool
    requires born { IsBornContainer atlas.now number }
    ensures { IsTrue result ↔ ((y : ℕ) → edges_of atlas.now number y ≡ count_by (λ r. r.target == y) regions.now) }
{
    let _inside = atlas.closes_circle(number, number);
    targets_are_entities(regions);
    for target in 0..64 {
        if !is_counted_to(atlas, number, regions, target) {
            return false;
        }
    }
    true
}
