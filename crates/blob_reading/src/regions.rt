//! The regions of a container.
ghost use Rattle.std.specs.Prelude.{◌≡◌, ◌+◌, ◌<◌, ◌≤◌, [], IfOk, IfErr};
ghost use Rattle.blob_facts.specs.Fields.{IsFound, IsRefused, Spells};
ghost use Rattle.blob_facts.specs.Parts.{AreRegionsOf, IsRegionIn};

use crate::fields::{Parsed, read_byte, read_number};
use base_types::{Entity, MOST_ENTITIES, MOST_PAGES, MOST_REGIONS, Region, Rights};
use data_regions::RegionMap;

/// The greatest set of rights of a region: Read and Write.
const READ_AND_WRITE: u8 = 3;

/// A region that begins at page `least` or behind it, and ends before page `most`.
pub(crate) fn read_region<'a>(bytes: &'a [u8], least: u16, most: u16) -> Parsed<'a, Region>
    requires some { least < most }
    requires size { most ≤ MOST_PAGES }
    ensures read { IfOk result (λ r. IsFound (IsRegionIn least most) bytes.now r.0 r.1.now) }
    ensures refused { IfErr result (λ stuck. IsRefused (Spells (IsRegionIn least most)) bytes.now stuck.rest.now) }
{
    let (at, rest) = read_byte(bytes, least as u8, (most - 1) as u8)?;
    let (count, rest) = read_number(rest, 2, 1, (most - at as u16) as u64)?;
    let (target, rest) = read_byte(rest, 0, MOST_ENTITIES - 1)?;
    let (from, rest) = read_byte(rest, 0, (MOST_PAGES - count) as u8)?;
    let (access, rest) = read_byte(rest, 1, READ_AND_WRITE)?;
    let region = Region {
        at,
        count: count as u16,
        target: Entity::of(target),
        from,
        rights: Rights(access),
    };
    Ok((region, rest))
}

/// The page behind the region.
pub(crate) fn end_of(region: &Region) -> u16
    requires { region.now.at + region.now.count ≤ MOST_PAGES }
    ensures { result ≡ region.now.at + region.now.count }
{
    region.at as u16 + region.count
}

/// Fills a map with the regions of a container of so many pages. Where it is refused, the map has some of them.
pub(crate) fn read_regions<'a>(
    bytes: &'a [u8],
    pages: u16,
    regions: &mut RegionMap<MOST_REGIONS>,
) -> Parsed<'a, ()>
    requires some { 1 ≤ pages }
    requires size { pages ≤ MOST_PAGES }
    requires empty { regions.old ≡ [] }
    ensures read { IfOk result (λ r. IsFound (AreRegionsOf pages) bytes.now regions.new r.1.now) }
    ensures refused { IfErr result (λ stuck. IsRefused (Spells (AreRegionsOf pages)) bytes.now stuck.rest.now) }
{
    let most = pages.min(MOST_REGIONS as u16) as u8;
    let (count, mut rest) = read_byte(bytes, 0, most)?;
    let mut least = 0;
    for place in 0..count {
        let left = (count - place - 1) as u16;
        let (region, behind) = match read_region(rest, least, pages - left) {
            Ok(read) => read,
            Err(stuck) => return Err(stuck),
        };
        least = end_of(&region);
        let _added = regions.add(region);
        rest = behind;
    }
    Ok(((), rest))
}
