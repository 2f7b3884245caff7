ghost use Rattle.std.specs.Prelude.{◌≡◌, ◌<◌, ◌&&◌, ◌==◌};
ghost use Rattle.std.specs.List.{list_any};
ghost use Rattle.model_kernel.specs.Refusals.{no_slot as slot_check, no_container as container_check, no_locus as locus_check, lacks as rights_check, no_page as page_check, no_free_slot as free_check, begins_private as begin_check, first_look_denied as look_check};
ghost use Rattle.model_kernel.specs.Words.{first as first_there, unless as reply_unless, denied, free_slot as lowest_free};
ghost use Rattle.model_acts.specs.Views.{view_of, meets};

use crate::reads::{named_cap, named_entity, named_rights, private_at, register};
use crate::view::LocusView;
use base_types::{Cap, Kind, MOST_PAGES, PAGE_WORDS, Region, Reply, Rights};

/// The first refusal that is there.
pub(crate) fn first_of(checks: &[Option<Reply>]) -> Option<Reply>
    ensures { result ≡ first_there checks.now }
{
    for check in checks {
        if let Some(reply) = check {
            return Some(*reply);
        }
    }
    None
}

/// This refusal where the test fails.
pub(crate) fn unless(holds: bool, reply: Reply) -> Option<Reply>
    ensures { result ≡ reply_unless holds reply }
{
    if holds { None } else { Some(reply) }
}

/// A denial of the lowest right that is needed and not held.
pub fn denial(held: Rights, needed: Rights) -> Option<Reply>
    ensures { result ≡ denied held.0 needed.0 }
{
    match held.missing(needed) {
        Some(right) => Some(Reply::Denied(right)),
        None => None,
    }
}

/// The lowest empty slot.
pub fn free_slot(caps: &[Option<Cap>]) -> Option<usize>
    ensures { result ≡ lowest_free caps.now }
{
    for (slot, held) in caps.iter().enumerate() {
        if held.is_none() {
            return Some(slot);
        }
    }
    None
}

pub(crate) fn no_slot(l: &LocusView, r: u8) -> Option<Reply>
    requires { r < 8 }
    ensures { result ≡ slot_check (view_of l.now) r }
{
    unless(named_cap(l, r).is_some(), Reply::NoSlot)
}

pub(crate) fn no_container(l: &LocusView, r: u8) -> Option<Reply>
    requires { r < 8 }
    ensures { result ≡ container_check (view_of l.now) r }
{
    let is_container = named_entity(l, r).kind() == Kind::Container;
    unless(is_container, Reply::WrongKind)
}

pub(crate) fn no_locus(l: &LocusView, r: u8) -> Option<Reply>
    requires { r < 8 }
    ensures { result ≡ locus_check (view_of l.now) r }
{
    let is_locus = named_entity(l, r).kind() == Kind::Locus;
    unless(is_locus, Reply::WrongKind)
}

pub(crate) fn lacks(l: &LocusView, r: u8, needed: Rights) -> Option<Reply>
    requires { r < 8 }
    ensures { result ≡ rights_check (view_of l.now) r needed.0 }
{
    denial(named_rights(l, r), needed)
}

/// No pages are mapped, or pages past the greatest size on either side.
pub(crate) fn no_page(l: &LocusView, a: u8, b: u8, n: u8) -> Option<Reply>
    requires a { a < 8 }
    requires b { b < 8 }
    requires n { n < 8 }
    ensures { result ≡ page_check (view_of l.now) a b n }
{
    let count = register(l, n);
    let fits = count > 0
        && count <= MOST_PAGES
        && register(l, a) <= MOST_PAGES - count
        && register(l, b) <= MOST_PAGES - count;
    unless(fits, Reply::NoPage)
}

pub(crate) fn no_free_slot(l: &LocusView) -> Option<Reply>
    ensures { result ≡ free_check (view_of l.now) }
{
    unless(free_slot(l.caps).is_some(), Reply::ListFull)
}

/// Whether these pages overlap the region.
fn meets_region(region: &Region, at: u64, count: u64) -> bool
    ensures { result ≡ meets at count region.now }
{
    let start = region.at as u64;
    at < start + region.count as u64 && start < at.saturating_add(count)
}

/// Whether these pages overlap a private region made in the present host.
pub(crate) fn overlaps_private(l: &LocusView, at: u64, count: u64) -> bool
    ensures { result ≡ list_any (λ p. p.made == l.now.host && meets at count p.region) l.now.privates.now }
{
    let host = l.host;
    l.privates
        .iter()
        .any(|p| p.made == host && meets_region(&p.region, at, count))
}

/// A private region made in the present host begins at the page.
pub(crate) fn begins_private(l: &LocusView, page: u64) -> bool
    ensures { result ≡ begin_check (view_of l.now) page }
{
    let host = l.host;
    l.privates
        .iter()
        .any(|p| p.made == host && p.region.at as u64 == page)
}

/// The denial of a private region that lacks the right, which counts in the first look of a walk alone.
pub(crate) fn first_look_denied(l: &LocusView, address: u64, needed: Rights) -> Option<Reply>
    ensures { result ≡ look_check (view_of l.now) l.now.walk address needed.0 }
{
    if l.walk.is_some() {
        return None;
    }
    match private_at(l, address / PAGE_WORDS) {
        Some(p) => denial(p.region.rights, needed),
        None => None,
    }
}
