//! The regions of a container, in a list of fixed room.
#![tactic(auto)]

ghost use Rattle.std.specs.Prelude.{◌≡◌, ◌≤◌, ◌<◌, ◌==◌, [], length, not, find, filter, OnOk, OnErr, IfSome, IfNone, None, IsSomeAnd, IsTrue, insert, slice_get};
ghost use Rattle.std.specs.Option.{ok_or};
ghost use Rattle.std.specs.List.{list_any};
ghost use Rattle.data_regions.specs.Regions.{IsRegion, AreRegions, covers, overlaps, insert_region, begins_at, add_answer};

use arrayvec::ArrayVec;
use base_types::{Region, Reply};
use std::marker::Model;

/// At most `N` regions, ascending by their first page, none of which overlap.
#[derive(Drop, Debug)]
pub struct RegionMap<const N: usize> {
    regions: ArrayVec<Region, N>,
}

impl<const N: usize> Model for RegionMap<N> {
    ghost use Rattle.std.specs.Prelude.{List};
    ghost use Rattle.base_types.specs.declared.capabilities.Region.{Region};

    ghost Value = { List Region };

    ghost use Rattle.data_regions.specs.Regions.{AreRegions};

    ghost view = { λ map. map.regions.items };

    ghost invariant = { λ map. AreRegions map.regions.items };
}

/// Whether the region covers the page.
fn is_covered(region: &Region, page: u64) -> bool
    ensures { result ≡ covers region.now page }
{
    let at = u64::from(region.at);
    at <= page && page < at + u64::from(region.count)
}

/// Whether some page is covered by both.
fn overlap(a: &Region, b: &Region) -> bool
    ensures { result ≡ overlaps a.now b.now }
{
    let a_at = u32::from(a.at);
    let b_at = u32::from(b.at);
    a_at < b_at + u32::from(b.count) && b_at < a_at + u32::from(a.count)
}

fn overlaps_any(region: &Region, regions: &[Region]) -> bool
    ensures { result ≡ list_any (overlaps region.now) regions.now }
{
    for kept in regions {
        if overlap(region, kept) {
            return true;
        }
    }
    false
}

/// The place of the first region that begins after the page, or their number.
fn place_behind(region: &Region, regions: &[Region]) -> usize
    ensures within { result ≤ length regions.now }
    ensures place { insert_region region.now regions.now ≡ insert regions.now result region.now }
{
    for (place, kept) in regions.iter().enumerate() {
        if region.at < kept.at {
            return place;
        }
    }
    regions.len()
}

/// The place of the region that begins at the page.
fn place_at(at: u64, regions: &[Region]) -> Option<usize>
    ensures some { IfSome result
        (λ place. IsSomeAnd (slice_get regions.now place) (λ region. IsTrue (begins_at at region))) }
    ensures none { IfNone result (find (begins_at at) regions.now ≡ None) }
{
    for (place, kept) in regions.iter().enumerate() {
        if u64::from(kept.at) == at {
            return Some(place);
        }
    }
    None
}

/// The region that covers the page.
fn find_covering(page: u64, regions: &[Region]) -> Option<Region>
    ensures { result ≡ find (λ region. covers region page) regions.now }
{
    for region in regions {
        if is_covered(region, page) {
            return Some(*region);
        }
    }
    None
}

impl<const N: usize> RegionMap<N> {
    /// A map without regions.
    pub fn new() -> RegionMap<N>
        ensures { result ≡ [] }
    {
        RegionMap {
            regions: ArrayVec::new(),
        }
    }

    /// All regions in their order.
    pub fn as_slice(&self) -> &[Region]
        ensures all { result.now ≡ self.now }
        ensures few { length self.now ≤ N }
        ensures regions { AreRegions self.now }
    {
        self.regions.as_slice()
    }

    /// Whether the region overlaps one that is there.
    pub fn overlaps(&self, region: &Region) -> bool
        ensures { result ≡ list_any (overlaps region.now) self.now }
    {
        overlaps_any(region, self.as_slice())
    }

    /// Whether there are `N` regions.
    pub fn is_full(&self) -> bool
        ensures full { result ≡ (length self.now == N) }
        ensures few { length self.now ≤ N }
    {
        self.regions.is_full()
    }

    /// Adds the region in its order. Overlap where it overlaps one that is there, else ListFull where there are
    /// `N` of them.
    pub fn add(&mut self, region: Region) -> Result<(), Reply>
        requires { IsRegion region }
        ensures answer { result ≡ add_answer N region self.old }
        ensures ok { OnOk result (self.new ≡ insert_region region self.old) }
        ensures refused { OnErr result (self.new ≡ self.old) }
        ensures regions { AreRegions self.new }
    {
        if self.overlaps(&region) {
            return Err(Reply::Overlap);
        }
        if self.is_full() {
            return Err(Reply::ListFull);
        }
        let place = place_behind(&region, self.as_slice());
        self.regions.insert(place, region);
        Ok(())
    }

    /// Takes out the region that begins at the page. NoRegion where none begins there.
    pub fn remove(&mut self, at: u64) -> Result<Region, Reply>
        ensures answer { result ≡ ok_or (find (begins_at at) self.old) Reply.NoRegion }
        ensures ok { OnOk result (self.new ≡ filter (λ region. not (begins_at at region)) self.old) }
        ensures refused { OnErr result (self.new ≡ self.old) }
        ensures regions { AreRegions self.new }
    {
        match place_at(at, self.as_slice()) {
            Some(place) => Ok(self.regions.remove(place)),
            None => Err(Reply::NoRegion),
        }
    }

    /// The region at a place of the list.
    pub fn get(&self, place: usize) -> Option<Region>
        ensures { result ≡ slice_get self.now place }
    {
        self.as_slice().get(place).copied()
    }

    /// The region that covers the page.
    pub fn covering(&self, page: u64) -> Option<Region>
        ensures covering { result ≡ find (λ region. covers region page) self.now }
        ensures regions { AreRegions self.now }
    {
        find_covering(page, self.as_slice())
    }
}
