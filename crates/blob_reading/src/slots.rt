//! Capabilities, each in its slot.
ghost use Rattle.std.specs.Prelude.{◌≡◌, ◌≤◌, ◌<◌, replicate, None, IfOk, IfErr};
ghost use Rattle.blob_facts.specs.Fields.{IsFound, IsRefused, Spells};
ghost use Rattle.blob_facts.specs.Parts.{AreCapsSpelled, IsSlotIn, slot_with};

use crate::fields::{Parsed, read_byte};
use base_types::{Cap, Entity, MOST_ENTITIES, Rights};
use data_capabilities::{CapList, SLOTS};

/// The last slot of a list.
const LAST_CAP_SLOT: u8 = SLOTS as u8 - 1;

/// A slot within these bounds, and the capability in it.
fn read_slot<'a>(bytes: &'a [u8], least: u8, most: u8) -> Parsed<'a, (u8, Cap)>
    requires { least ≤ most }
    ensures read { IfOk result (λ r. IsFound (IsSlotIn least most) bytes.now (slot_with r.0.0 r.0.1.entity r.0.1.rights.0) r.1.now) }
    ensures refused { IfErr result (λ stuck. IsRefused (Spells (IsSlotIn least most)) bytes.now stuck.rest.now) }
{
    let (slot, rest) = read_byte(bytes, least, most)?;
    let (entity, rest) = read_byte(rest, 0, MOST_ENTITIES - 1)?;
    let (rights, rest) = read_byte(rest, 0, u8::MAX)?;
    let cap = Cap {
        entity: Entity::of(entity),
        rights: Rights(rights),
    };
    Ok(((slot, cap), rest))
}

/// Fills an empty list with capabilities. Where they are refused, the list has some of them.
pub(crate) fn read_caps<'a>(bytes: &'a [u8], caps: &mut CapList) -> Parsed<'a, ()>
    requires { caps.old ≡ replicate SLOTS None }
    ensures read { IfOk result (λ r. IsFound AreCapsSpelled bytes.now caps.new r.1.now) }
    ensures refused { IfErr result (λ stuck. IsRefused (Spells AreCapsSpelled) bytes.now stuck.rest.now) }
{
    let (count, mut rest) = read_byte(bytes, 0, SLOTS as u8)?;
    let mut least = 0;
    for place in 0..count {
        let left = count - place - 1;
        let ((slot, cap), behind) = match read_slot(rest, least, LAST_CAP_SLOT - left) {
            Ok(read) => read,
            Err(stuck) => return Err(stuck),
        };
        caps.set(slot, Some(cap));
        least = slot + 1;
        rest = behind;
    }
    Ok(((), rest))
}
