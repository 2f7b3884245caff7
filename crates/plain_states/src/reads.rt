ghost use Rattle.std.specs.Prelude.{◌≡◌, ◌<◌, IfSome, None, length};
ghost use Rattle.model_kernel.specs.Outcomes.{given_cap as cap_given};
ghost use Rattle.model_kernel.specs.Refusals.{new_region as region_made, no_page, reg};
ghost use Rattle.model_kernel.specs.Words.{cap_at as cap_in, free_slot as lowest_free};
ghost use Rattle.plain_states.specs.Plains.{locus_of};

use crate::plain::PlainLocus;
use base_types::{Cap, Region, Rights};
use model_acts::{named_entity, named_rights};

/// What stands in a register.
pub fn register(l: &PlainLocus, r: u8) -> u64
    requires { r < 8 }
    ensures { result ≡ reg (locus_of l.now) r }
{
    l.registers[r as usize]
}

/// The capability in a slot.
pub fn cap_at(caps: &[Option<Cap>], slot: u64) -> Option<Cap>
    ensures { result ≡ cap_in caps.now slot }
{
    match caps.get(slot as usize) {
        Some(held) => *held,
        None => None,
    }
}

/// The lowest empty slot.
pub fn free_slot(caps: &[Option<Cap>]) -> Option<usize>
    ensures slot { result ≡ lowest_free caps.now }
    ensures within { IfSome result (λ slot. slot < length caps.now) }
{
    for (slot, held) in caps.iter().enumerate() {
        if held.is_none() {
            return Some(slot);
        }
    }
    None
}

/// The region that a mapping would make, whose pages are within the greatest size.
#[tactic(auto, using(crate::proofs::ReadLemmas::pages_within))]
pub fn new_region(l: &PlainLocus, a: u8, c: u8, b: u8, n: u8, rights: Rights) -> Region
    requires at { a < 8 }
    requires target { c < 8 }
    requires from { b < 8 }
    requires count { n < 8 }
    requires page { no_page (locus_of l.now) a b n ≡ None }
    ensures { result ≡ region_made (locus_of l.now) a c b n rights }
{
    Region {
        at: register(l, a) as u8,
        count: register(l, n) as u16,
        target: named_entity(&l.view(), c),
        from: register(l, b) as u8,
        rights,
    }
}

/// A capability like the named one, with the rights that it and these both have.
pub fn given_cap(l: &PlainLocus, s: u8, rights: Rights) -> Cap
    requires { s < 8 }
    ensures { result ≡ cap_given (locus_of l.now) s rights.0 }
{
    Cap {
        entity: named_entity(&l.view(), s),
        rights: Rights(named_rights(&l.view(), s).0 & rights.0),
    }
}
