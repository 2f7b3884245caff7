//! The list of capabilities that a container or a locus holds: 32 slots of fixed room.
#![tactic(auto)]

ghost use Rattle.std.specs.Prelude.{◌≡◌, ◌<◌, length, replicate, slice_set, Some, None, Ok, Err, IfSome, IfOk, MatchOption, OnOk, OnErr};
ghost use Rattle.std.specs.Option.{ok_or};
ghost use Rattle.base_types.specs.Slots.{cap_at, free_slot};

use base_types::{Cap, Reply};
use std::marker::Model;

/// The number of slots.
pub const SLOTS: usize = 32;

/// The lowest empty slot.
fn lowest_empty(slots: &[Option<Cap>]) -> Option<usize>
    ensures lowest { result ≡ free_slot slots.now }
    ensures within { IfSome result (λ slot. slot < length slots.now) }
{
    for (slot, held) in slots.iter().enumerate() {
        if held.is_none() {
            return Some(slot);
        }
    }
    None
}

/// A list of 32 slots, each of which holds a capability or is empty.
#[derive(Clone, Copy, PartialEq, Eq, Debug)]
pub struct CapList {
    slots: [Option<Cap>; SLOTS],
}

impl Model for CapList {
    ghost use Rattle.std.specs.Prelude.{◌≡◌, List, Option, length};
    ghost use Rattle.base_types.specs.declared.capabilities.Cap.{Cap};

    ghost Value = { List (Option Cap) };

    ghost view = { λ list. list.slots };

    ghost invariant = { λ list. length list.slots ≡ 32 };

    ghost inverse = { λ slots. record { slots = slots } };
}

impl CapList {
    /// A list whose slots are all empty.
    pub fn new() -> CapList
        ensures { result ≡ replicate SLOTS None }
    {
        CapList {
            slots: [None; SLOTS],
        }
    }

    /// All slots in their order.
    pub fn slots(&self) -> &[Option<Cap>]
        ensures all { result.now ≡ self.now }
        ensures slots { length self.now ≡ SLOTS }
    {
        &self.slots
    }

    /// Puts the capability into the lowest empty slot, and answers its number. ListFull where none is empty.
    pub fn put(&mut self, cap: Cap) -> Result<u8, Reply>
        ensures put { MatchOption (free_slot self.old)
            (result ≡ Err Reply.ListFull)
            (λ slot. (result ≡ Ok slot) × (self.new ≡ slice_set self.old slot (Some cap))) }
        ensures number { IfOk result (λ slot. slot < SLOTS) }
        ensures refused { OnErr result (self.new ≡ self.old) }
        ensures slots { length self.new ≡ SLOTS }
    {
        match lowest_empty(&self.slots) {
            Some(slot) => {
                self.slots[slot] = Some(cap);
                Ok(slot as u8)
            }
            None => Err(Reply::ListFull),
        }
    }

    /// Fills the slot with the capability, or empties it, whatever was in it.
    pub fn set(&mut self, slot: u8, cap: Option<Cap>)
        requires { slot < SLOTS }
        ensures set { self.new ≡ slice_set self.old slot cap }
        ensures slots { length self.new ≡ SLOTS }
    {
        self.slots[slot as usize] = cap;
    }

    /// The capability in the slot. NoSlot where there is no such slot, or it is empty.
    pub fn at(&self, slot: u64) -> Result<Cap, Reply>
        ensures found { result ≡ ok_or (cap_at self.now slot) Reply.NoSlot }
        ensures slots { length self.now ≡ SLOTS }
    {
        match self.slots.get(slot as usize) {
            Some(Some(cap)) => Ok(*cap),
            _ => Err(Reply::NoSlot),
        }
    }

    /// Empties the slot, and answers what was in it. NoSlot where there is no such slot, or it is empty.
    pub fn clear(&mut self, slot: u64) -> Result<Cap, Reply>
        ensures cleared { result ≡ ok_or (cap_at self.old slot) Reply.NoSlot }
        ensures ok { OnOk result (self.new ≡ slice_set self.old slot None) }
        ensures refused { OnErr result (self.new ≡ self.old) }
        ensures slots { length self.new ≡ SLOTS }
    {
        let cap = self.at(slot)?;
        self.slots[slot as usize] = None;
        Ok(cap)
    }
}
