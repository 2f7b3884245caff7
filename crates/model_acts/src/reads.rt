ghost use Rattle.std.specs.Prelude.{◌≡◌, ◌/◌, ◌<◌, find};
ghost use Rattle.base_types.specs.Instructions.{IsInstruction};
ghost use Rattle.model_kernel.specs.Acts.{caller as caller_of, look_at};
ghost use Rattle.model_kernel.specs.Refusals.{reg, instr_at, named, entity_of, rights_of, private_at as private_region};
ghost use Rattle.model_kernel.specs.Words.{covers};
ghost use Rattle.model_acts.specs.Views.{view_of, IsReadyLocus};

use crate::view::LocusView;
use base_types::{Cap, Entity, Instr, PAGE_WORDS, Private, Region, Rights};

/// What stands in a register.
pub fn register(l: &LocusView, r: u8) -> u64
    requires { r < 8 }
    ensures { result ≡ reg (view_of l.now) r }
{
    l.registers[r as usize]
}

/// The instruction at the locus's place. Past the end of the code it halts.
pub fn fetch(l: &LocusView) -> Instr
    requires { IsReadyLocus (view_of l.now) }
    ensures at { result ≡ instr_at (view_of l.now) }
    ensures instruction { IsInstruction result }
{
    match l.code.get(l.place as usize) {
        Some(instr) => *instr,
        None => Instr::Halt,
    }
}

/// The capability in the slot that a register names.
pub fn named_cap(l: &LocusView, r: u8) -> Option<Cap>
    requires { r < 8 }
    ensures { result ≡ named (view_of l.now) r }
{
    match l.caps.get(register(l, r) as usize) {
        Some(Some(cap)) => Some(*cap),
        _ => None,
    }
}

/// The entity that the capability names. The atlas where the slot is empty.
pub fn named_entity(l: &LocusView, r: u8) -> Entity
    requires { r < 8 }
    ensures { result ≡ entity_of (view_of l.now) r }
{
    match named_cap(l, r) {
        Some(cap) => cap.entity,
        None => Entity::ATLAS,
    }
}

/// The rights of the capability. None where the slot is empty.
pub fn named_rights(l: &LocusView, r: u8) -> Rights
    requires { r < 8 }
    ensures { result.0 ≡ rights_of (view_of l.now) r }
{
    match named_cap(l, r) {
        Some(cap) => cap.rights,
        None => Rights(0),
    }
}

/// Whether the region covers the page.
pub fn covers_page(region: &Region, page: u64) -> bool
    ensures { result ≡ covers region.now page }
{
    let at = region.at as u64;
    at <= page && page < at + region.count as u64
}

/// The private region made in the present host that covers the page.
pub fn private_at(l: &LocusView, page: u64) -> Option<Private>
    ensures { result ≡ private_region (view_of l.now) page }
{
    let host = l.host;
    l.privates
        .iter()
        .copied()
        .find(|p| p.made == host && covers_page(&p.region, page))
}

/// The container of the locus's next look.
pub fn next_container(l: &LocusView, address: u64) -> Entity
    ensures { result ≡ look_at (view_of l.now) address }
{
    match l.walk {
        Some(walk) => walk.at,
        None => match private_at(l, address / PAGE_WORDS) {
            Some(p) => p.region.target,
            None => l.host,
        },
    }
}

/// The container of the last call. The atlas where nothing called.
pub fn caller(l: &LocusView) -> Entity
    ensures { result ≡ caller_of (view_of l.now) }
{
    match l.chain.last() {
        Some(call) => call.container,
        None => Entity::ATLAS,
    }
}
