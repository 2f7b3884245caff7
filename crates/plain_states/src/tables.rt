ghost use Rattle.std.specs.Prelude.{◌≡◌, ◌≤◌, IfOk, OnOk, OnErr, nat_lt, length, map, string_bytes};
ghost use Rattle.std.specs.List.{position_or_len};
ghost use Rattle.model_kernel.specs.Births.{caps_from as caps_by, regions_from as regions_by, container_from as container_by, locus_from as locus_by};
ghost use Rattle.model_kernel.specs.Scripts.{number_in};
ghost use Rattle.model_kernel.specs.State.{Supply};
ghost use Rattle.model_kernel.specs.Words.{insert_region as inserted};
ghost use Rattle.script_types.specs.Scripts.{region_of, cap_of, container_of as container_table_of, locus_of as locus_table_of};
ghost use Rattle.plain_states.specs.Born.{HasFewNames, edges_below};
ghost use Rattle.plain_states.specs.Plains.{atlas_of, container_of, locus_of};

use crate::names::known_number;
use crate::plain::{Edge, PlainAtlas, PlainContainer, PlainLocus};
use base_types::{Cap, Condition, Entity, Instr, MOST_CAPS, Region};
use script_types::{ScriptCap, ScriptContainer, ScriptLocus, ScriptRegion};
use std::alloc::{AllocError, Global};
use std::collections::BTreeMap;

/// Where the first region stands that begins behind the page, or the end.
fn place_of_page(regions: &[Region], at: u8) -> usize
    ensures place { result ≡ position_or_len (λ other. nat_lt at other.at) regions.now }
    ensures within { result ≤ length regions.now }
{
    for (place, other) in regions.iter().enumerate() {
        if at < other.at {
            return place;
        }
    }
    regions.len()
}

/// Puts a region before the first one that begins behind it. On want of memory nothing is changed.
pub fn insert_region(regions: &mut Vec<Region>, region: Region) -> Result<(), AllocError>
    ensures ok { OnOk result (regions.new.items ≡ inserted region regions.old.items) }
    ensures err { OnErr result (regions.new.items ≡ regions.old.items) }
{
    let place = place_of_page(regions, region.at);
    regions.insert(place, region)?;
    Ok(())
}

/// The regions of a table, ascending.
fn regions_from(
    alloc: Global,
    atlas: &PlainAtlas,
    own: &str,
    newborn: Entity,
    tables: &[ScriptRegion],
) -> Result<Vec<Region>, AllocError>
    requires { HasFewNames atlas.now }
    ensures { IfOk result (λ v. v.items ≡ regions_by (number_in (atlas_of atlas.now) own.now newborn) (map region_of tables.now)) }
{
    let mut regions = Vec::new(alloc);
    for i in (0..tables.len()).rev() {
        let table = &tables[i];
        let target = known_number(atlas, own, newborn, &table.target);
        let region = Region {
            at: table.at,
            count: table.count,
            target,
            from: table.from,
            rights: table.rights,
        };
        insert_region(&mut regions, region)?;
    }
    Ok(regions)
}

/// The capabilities of a table, in the slots from 0 on.
fn caps_from(
    alloc: Global,
    atlas: &PlainAtlas,
    own: &str,
    newborn: Entity,
    tables: &[ScriptCap],
) -> Result<Vec<Option<Cap>>, AllocError>
    requires names { HasFewNames atlas.now }
    requires slots { length tables.now ≤ 32 }
    ensures { IfOk result (λ v. v.items ≡ caps_by (number_in (atlas_of atlas.now) own.now newborn) 0 (map cap_of tables.now)) }
{
    let mut caps = vec![in alloc; None; MOST_CAPS]?;
    for slot in (0..tables.len()).rev() {
        let table = &tables[slot];
        let entity = known_number(atlas, own, newborn, &table.entity);
        caps[slot] = Some(Cap {
            entity,
            rights: table.rights,
        });
    }
    Ok(caps)
}

/// The container of a table.
pub fn container_from(
    alloc: Global,
    atlas: &PlainAtlas,
    newborn: Entity,
    table: &ScriptContainer,
) -> Result<PlainContainer, AllocError>
    requires names { HasFewNames atlas.now }
    requires slots { length table.now.caps.items ≤ 32 }
    ensures { IfOk result (λ c. (s : Supply) → container_of s c ≡ container_by s (number_in (atlas_of atlas.now) (string_bytes table.now.name) newborn) (container_table_of table.now)) }
{
    let code = Vec::from_slice(alloc, &table.code)?;
    let regions = regions_from(alloc, atlas, &table.name, newborn, &table.regions)?;
    let caps = caps_from(alloc, atlas, &table.name, newborn, &table.caps)?;
    Ok(PlainContainer {
        pages: table.pages,
        tag: table.tag,
        every: table.every,
        entry: table.entry,
        code,
        regions,
        caps,
        words: BTreeMap::new(alloc),
    })
}

/// The locus of a table, in a host with this code.
pub fn locus_from(
    alloc: Global,
    atlas: &PlainAtlas,
    newborn: Entity,
    table: &ScriptLocus,
    host: Entity,
    code: &[Instr],
) -> Result<PlainLocus, AllocError>
    requires names { HasFewNames atlas.now }
    requires slots { length table.now.caps.items ≤ 32 }
    ensures { IfOk result (λ l. locus_of l ≡ locus_by (number_in (atlas_of atlas.now) (string_bytes table.now.name) newborn) (locus_table_of table.now) host code.now) }
{
    let code = Vec::from_slice(alloc, code)?;
    let caps = caps_from(alloc, atlas, &table.name, newborn, &table.caps)?;
    Ok(PlainLocus {
        registers: [0; 8],
        place: table.at,
        code,
        host,
        chain: Vec::new(alloc),
        privates: Vec::new(alloc),
        caps,
        walk: None,
        condition: Condition::Running,
        every: table.every,
        printed: 0,
    })
}

/// The edges of a newborn container, ascending: how many of its regions show each container of a lower number.
pub fn edges_from(
    alloc: Global,
    newborn: Entity,
    regions: &[Region],
) -> Result<Vec<Edge>, AllocError>
    requires { length regions.now ≤ 16 }
    ensures { IfOk result (λ v. v.items ≡ edges_below newborn regions.now newborn) }
{
    let from = newborn.number();
    let mut edges = Vec::new(alloc);
    for to in 0..from {
        let count = regions.iter().filter(|r| r.target.number() == to).count() as u8;
        if count > 0 {
            edges.push(Edge { from, to, count })?;
        }
    }
    Ok(edges)
}
