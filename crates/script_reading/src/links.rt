//! What a table refers to: regions and capabilities.
ghost use Rattle.std.specs.Prelude.{◌≡◌, ◌≤◌, List, length, map, not};
ghost use Rattle.std.specs.List.{list_all};
ghost use Rattle.script_types.specs.model_kernel.Scripts.{CapTable};
ghost use Rattle.toml.specs.View.{view, table_view};
ghost use Rattle.script_meaning.specs.Meaning.{overlap, is_within, fits, a_region, regions_at, a_cap, caps_at, names_of};
ghost use Rattle.script_meaning.specs.Reading.{Reads};
ghost use Rattle.script_types.specs.Rules.{is_among, container_names, locus_names};
ghost use Rattle.script_types.specs.Scripts.{region_of, cap_of, container_of, locus_of};
ghost use Rattle.script_reading.specs.Views.{region_form_of, AreSmall, names_known};

use crate::fields::{list_at, string_item};
use crate::keys::{dotted, refuse_item};
use crate::strings::{CapWords, RegionWords, cap_words, is_same, region_words};
use base_types::{MOST_CAPS, MOST_REGIONS};
use script_types::{ScriptCap, ScriptContainer, ScriptFault, ScriptLocus, ScriptRegion, Why};
use std::alloc::Global;
use toml::{Table, Value};

pub(crate) fn has_container(containers: &[ScriptContainer], name: &str) -> bool
    ensures { result ≡ is_among (container_names (map container_of containers.now)) name.now }
{
    containers
        .iter()
        .any(|container| is_same(name, container.name.as_str()))
}

pub(crate) fn has_locus(loci: &[ScriptLocus], name: &str) -> bool
    ensures { result ≡ is_among (locus_names (map locus_of loci.now)) name.now }
{
    loci.iter().any(|locus| is_same(name, locus.name.as_str()))
}

/// Whether one of these has the name.
pub(crate) fn is_taken(containers: &[ScriptContainer], loci: &[ScriptLocus], name: &str) -> bool
    ensures { result ≡ is_among (names_of (map container_of containers.now) (map locus_of loci.now)) name.now }
{
    has_container(containers, name) || has_locus(loci, name)
}

// ---- Regions

fn overlaps(words: &RegionWords<'_>, region: &ScriptRegion) -> bool
    ensures { result ≡ overlap (region_form_of words.now) (region_of region.now) }
{
    let end = u32::from(region.at) + u32::from(region.count);
    u32::from(words.at) < end && u32::from(region.at) < u32::from(words.at) + u32::from(words.count)
}

/// Whether the region has pages that are within those of both sides.
fn is_within(words: &RegionWords<'_>, pages: u16) -> bool
    requires { AreSmall words.now }
    ensures { result ≡ is_within pages (region_form_of words.now) }
{
    if words.count == 0 {
        return false;
    }
    words.at + words.count <= pages && words.from + words.count <= 256
}

/// Whether the region is apart from those before.
fn is_apart(words: &RegionWords<'_>, before: &[ScriptRegion]) -> bool
    ensures { result ≡ list_all (λ s. not (overlap (region_form_of words.now) s)) (map region_of before.now) }
{
    before.iter().all(|region| !overlaps(words, region))
}

fn fits(words: &RegionWords<'_>, pages: u16, before: &[ScriptRegion]) -> bool
    requires { AreSmall words.now }
    ensures { result ≡ fits pages (map region_of before.now) (region_form_of words.now) }
{
    is_within(words, pages) && is_apart(words, before)
}

/// The region at the next place of the list with this key.
fn read_region(
    alloc: Global,
    value: &Value,
    key: &str,
    pages: u16,
    earlier: &[ScriptContainer],
    before: &[ScriptRegion],
) -> Result<ScriptRegion, ScriptFault>
    requires { pages ≤ 256 }
    ensures { Reads region_of (a_region (container_names (map container_of earlier.now)) pages key.now (map region_of before.now) (view value.now)) result }
{
    let place = before.len();
    let text = string_item(alloc, value, key, place)?;
    let Some(words) = region_words(text) else {
        return Err(refuse_item(alloc, Why::BadCode, key, place));
    };
    if !has_container(earlier, words.target) {
        return Err(refuse_item(alloc, Why::Unknown, key, place));
    }
    if !fits(&words, pages, before) {
        return Err(refuse_item(alloc, Why::Range, key, place));
    }
    Ok(ScriptRegion {
        at: words.at as u8,
        target: String::from_str(alloc, words.target)?,
        from: words.from as u8,
        count: words.count,
        rights: words.rights,
    })
}

/// The regions of a container, onto those that stand earlier.
pub(crate) fn read_regions(
    alloc: Global,
    table: &Table,
    key: &str,
    pages: u16,
    earlier: &[ScriptContainer],
) -> Result<Vec<ScriptRegion>, ScriptFault>
    requires { pages ≤ 256 }
    ensures { Reads (λ regions. map region_of regions.items) (regions_at (container_names (map container_of earlier.now)) pages key.now (table_view table.now)) result }
{
    let values = list_at(alloc, table, key, "regions", MOST_REGIONS)?;
    let list_key = dotted(alloc, key, "regions")?;
    let mut regions = Vec::new(alloc);
    for value in values {
        let region = read_region(
            alloc,
            value,
            list_key.as_str(),
            pages,
            earlier,
            regions.as_slice(),
        )?;
        regions.push(region)?;
    }
    Ok(regions)
}

// ---- Capabilities

/// Those that a table's capabilities may name, beside the atlas and itself.
#[derive(Clone, Copy)]
pub(crate) struct Known<'a> {
    pub own: &'a str,
    pub containers: &'a [ScriptContainer],
    pub loci: &'a [ScriptLocus],
}

fn is_known(known: Known<'_>, name: &str) -> bool
    ensures { result ≡ is_among (names_known known.entry) name.now }
{
    is_same(name, "atlas")
        || is_same(name, known.own)
        || is_taken(known.containers, known.loci, name)
}

/// The capability at the next place of the list with this key.
fn read_cap(
    alloc: Global,
    value: &Value,
    key: &str,
    known: Known<'_>,
    place: usize,
) -> Result<ScriptCap, ScriptFault>
    ensures { (done : List CapTable) → length done ≡ place → Reads cap_of (a_cap (names_known known.entry) key.now done (view value.now)) result }
{
    let text = string_item(alloc, value, key, place)?;
    let Some(words) = cap_words(text) else {
        return Err(refuse_item(alloc, Why::BadCode, key, place));
    };
    if !is_known(known, words.entity) {
        return Err(refuse_item(alloc, Why::Unknown, key, place));
    }
    Ok(ScriptCap {
        entity: String::from_str(alloc, words.entity)?,
        rights: words.rights,
    })
}

/// The capabilities of a table.
pub(crate) fn read_caps(
    alloc: Global,
    table: &Table,
    key: &str,
    known: Known<'_>,
) -> Result<Vec<ScriptCap>, ScriptFault>
    ensures { Reads (λ caps. map cap_of caps.items) (caps_at (names_known known.entry) key.now (table_view table.now)) result }
{
    let values = list_at(alloc, table, key, "caps", MOST_CAPS)?;
    let list_key = dotted(alloc, key, "caps")?;
    let mut caps = Vec::new(alloc);
    for value in values {
        let place = caps.len();
        let cap = read_cap(alloc, value, list_key.as_str(), known, place)?;
        caps.push(cap)?;
    }
    Ok(caps)
}
