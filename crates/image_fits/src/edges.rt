//! Whether the atlas counts exactly the regions that containers show, and each entity that it names is chosen.
ghost use Rattle.std.specs.Prelude.{◌≡◌, ◌↔◌, ◌≤◌, IsTrue, length};
ghost use Rattle.data_atlas.specs.data_atlas_facts.Directory.{edges_of};
ghost use Rattle.model_circles.specs.Containers.{IsAmongContainers};
ghost use Rattle.image_fit_facts.specs.image_meaning.Fits.{IsTiedAtlas};
ghost use Rattle.blob_atlas.specs.act_calls.Calls.{atlas_state};
ghost use Rattle.image_fits.specs.Chosen.{parts_of};
ghost use Rattle.image_fit_facts.specs.Edges.{IsTally, IsRow};
ghost use Rattle.image_fits.specs.Edges.{AreRows, AreAllChosen, regions_in};

use crate::born::is_born;
use crate::chosen::{ChosenEntity, ChosenPart};
use crate::circles::has_no_circle;
use base_types::{Entity, MOST_ENTITIES, MOST_REGIONS, Region};
use data_atlas::Atlas;

// The regions that a chosen part shows.
fn regions_of(chosen: &Option<ChosenEntity>) -> &[Region]
    ensures regions { result.now ≡ regions_in chosen.now }
    ensures few { length result.now ≤ MOST_REGIONS }
{
    match chosen {
        Some(entity) => match &entity.part {
            ChosenPart::Container(container) => container.head.regions.as_slice(),
            _ => &[],
        },
        None => &[],
    }
}

// How many of the regions show each entity.
fn tally(regions: &[Region]) -> [u8; MOST_ENTITIES as usize]
    requires { length regions.now ≤ MOST_REGIONS }
    ensures counts { IsTally result regions.now }
    ensures all { length result ≡ MOST_ENTITIES }
{
    let mut counts = [0; MOST_ENTITIES as usize];
    for region in regions {
        let target = region.target.number() as usize;
        counts[target] += 1;
    }
    counts
}

// Whether the atlas counts so many regions of each that the entity shows.
fn is_row(atlas: &Atlas, from: Entity, chosen: &Option<ChosenEntity>) -> bool
    ensures row { IsTrue result ↔ IsRow (edges_of atlas.now) from (regions_in chosen.now) }
    ensures inside { IsAmongContainers (edges_of atlas.now) }
{
    let counts = tally(regions_of(chosen));
    for to in 0..MOST_ENTITIES {
        if atlas.count(from, Entity::of(to)) != counts[to as usize] {
            return false;
        }
    }
    true
}

// Whether the atlas counts exactly the regions that are shown.
fn are_rows(atlas: &Atlas, entities: &[Option<ChosenEntity>]) -> bool
    requires { length entities.now ≡ MOST_ENTITIES }
    ensures { IsTrue result ↔ AreRows (edges_of atlas.now) entities.now }
{
    for number in 0..MOST_ENTITIES {
        if !is_row(atlas, Entity::of(number), &entities[number as usize]) {
            return false;
        }
    }
    true
}

// Whether each entity that the atlas names is chosen.
fn are_all_chosen(atlas: &Atlas, entities: &[Option<ChosenEntity>]) -> bool
    requires { length entities.now ≡ MOST_ENTITIES }
    ensures { IsTrue result ↔ AreAllChosen (atlas_state atlas.now) entities.now }
{
    for number in 0..MOST_ENTITIES {
        let named = is_born(atlas, Entity::of(number));
        let missing = entities[number as usize].is_none();
        if named & missing {
            return false;
        }
    }
    true
}

/// Whether each entity that the atlas names is chosen, the atlas counts exactly the regions that chosen containers show, and they
/// make no circle. It looks at each count of two entities once, at each region once, and for circles as
/// [`has_no_circle`] says.
pub fn ties_atlas(atlas: &Atlas, entities: &[Option<ChosenEntity>]) -> bool
    requires { length entities.now ≡ MOST_ENTITIES }
    ensures { IsTrue result ↔ IsTiedAtlas (parts_of entities.now) (atlas_state atlas.now) }
{
    let chosen = are_all_chosen(atlas, entities);
    let counted = are_rows(atlas, entities);
    let open = has_no_circle(atlas);
    chosen & counted & open
}
