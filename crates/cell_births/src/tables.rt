// Capabilities and regions of a table.
ghost use Rattle.std.specs.Prelude.{◌≡◌, ◌≤◌, ℕ, List, All, length, map};
ghost use Rattle.script_types.specs.model_kernel.Births.{caps_from as caps_by, regions_from as regions_by};
ghost use Rattle.script_types.specs.model_kernel.Scripts.{number_in};
ghost use Rattle.script_types.specs.model_kernel.State.{Text};
ghost use Rattle.script_types.specs.Rules.{AreAllApart, IsRegionTable};
ghost use Rattle.script_types.specs.Scripts.{cap_of, region_of};
ghost use Rattle.script_fits.specs.act_calls.Calls.{atlas_state};

use crate::names::known_number;
use base_types::{Cap, Entity, Region};
use data_atlas::Atlas;
use data_capabilities::CapList;
use data_regions::RegionMap;
use script_types::{ScriptCap, ScriptRegion};

/// The capabilities of a table, in the slots from 0 on.
pub(crate) fn caps_from(atlas: &Atlas, own: &str, newborn: Entity, tables: &[ScriptCap]) -> CapList
    requires { length tables.now ≤ 32 }
    ensures { result ≡ caps_by (number_in (atlas_state atlas.now) own.now newborn) 0 (map cap_of tables.now) }
{
    let mut caps = CapList::new();
    for slot in (0..tables.len()).rev() {
        let table = &tables[slot];
        let entity = known_number(atlas, own, newborn, &table.entity);
        let cap = Cap {
            entity,
            rights: table.rights,
        };
        caps.set(slot as u8, Some(cap));
    }
    caps
}

/// The regions of a table, none of which overlap.
pub(crate) fn regions_from(
    atlas: &Atlas,
    own: &str,
    newborn: Entity,
    tables: &[ScriptRegion],
) -> RegionMap<16>
    requires few { length tables.now ≤ 16 }
    requires ranges { (known : List Text) × (pages : ℕ) × (pages ≤ 256) × All (IsRegionTable known pages) (map region_of tables.now) }
    requires apart { AreAllApart (map region_of tables.now) }
    ensures { result ≡ regions_by (number_in (atlas_state atlas.now) own.now newborn) (map region_of tables.now) }
{
    let mut regions = RegionMap::new();
    for i in (0..tables.len()).rev() {
        let table = &tables[i];
        let target = known_number(atlas, own, newborn, &table.target);
        let region = Region {
            at: table.at,
            count: table.count,
            target,
            from: table.from,
            rights: table.rights,
        };
        let _ = regions.add(region);
    }
    regions
}
