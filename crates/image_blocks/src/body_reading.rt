// The bodies of slots, read.
ghost use Rattle.std.specs.Prelude.{◌≡◌, ◌<◌, ◌==◌, nat_le, if◌then◌else◌, None, Some, OnOk, IfOk, IfErr};
ghost use Rattle.image_facts.specs.Bodies.{number_at, record_in};
ghost use Rattle.image_facts.specs.Layout.{last_number};
ghost use Rattle.image_facts.specs.Checks.{blocks_fault as bad_block, body_fault as fault_of, is_block_number as may_be, last_version as last_in, stamps_fault as bad_component};

use crate::blocks::{u32_at, u64_at};
use crate::faults::{first_place, nonzero_from, unless_at};
use crate::{LAST_NUMBER, MOST_LENGTH, POOL_AT};
use base_types::{Entity, Rec};

// The version of the entity's last record once this one stands behind the others.
fn last_with(rec: &Rec, entity: u32, last: u64) -> u64
    ensures { result ≡ (if rec.now.entity == entity then rec.now.version else last) }
{
    if rec.entity.number() as u32 == entity {
        rec.version
    } else {
        last
    }
}

// The version of an entity's last record, 0 for none.
fn last_version(before: &[Rec], entity: u32) -> u64
    ensures { result ≡ last_in before.now entity }
{
    let mut last = 0;
    for rec in before {
        last = last_with(rec, entity, last);
    }
    last
}

// Whether a component of the stamp may be so.
fn is_component(entity: u32, version: u64, y: u32, component: u64) -> bool
    ensures { result ≡ (if y == entity then component == version else nat_le component last_number) }
{
    if y == entity {
        component == version
    } else {
        component <= LAST_NUMBER
    }
}

// The first bad component of the stamp of an entity's record at a version.
fn stamp_fault(entity: u32, version: u64, body: &[u8; 1024]) -> Option<u16>
    ensures { result ≡ bad_component entity version body.now }
{
    for y in 0..64 {
        let component = u64_at(body, 16 + 8 * y);
        if !is_component(entity, version, y as u32, component) {
            return Some(16 + 8 * y as u16);
        }
    }
    None
}

// The numbers of the blob's blocks.
fn blocks_in(body: &[u8; 1024]) -> [u32; 8]
    ensures { result ≡ (record_in body.now).blocks }
{
    let mut blocks = [0; 8];
    for i in 0..8 {
        blocks[i] = u32_at(body, 528 + 4 * i);
    }
    blocks
}

// Whether a number of these may be so: a block of the pool that isn't among the earlier ones, or 0 where none is needed.
fn is_block_number(count: u32, need: usize, blocks: &[u32; 8], i: usize) -> bool
    requires { i < 8 }
    ensures { result ≡ may_be count need blocks.now i }
{
    let number = blocks[i];
    if i < need {
        POOL_AT <= number && number < count && !blocks[..i].contains(&number)
    } else {
        number == 0
    }
}

// The first bad number of these, of which so many are to be blocks of the pool.
fn blocks_fault(count: u32, need: usize, blocks: &[u32; 8]) -> Option<u16>
    ensures { result ≡ bad_block count need blocks.now }
{
    for i in 0..8 {
        if !is_block_number(count, need, blocks, i) {
            return Some(528 + 4 * i as u16);
        }
    }
    None
}

// The first bad byte of a body behind these records, in an image of so many blocks.
fn body_fault(count: u32, before: &[Rec], body: &[u8; 1024]) -> Option<u16>
    ensures { result ≡ fault_of count before.now body.now }
{
    let entity = u32_at(body, 0);
    let length = u32_at(body, 4);
    let version = u64_at(body, 8);
    let last = last_version(before, entity);
    let need = (length as usize + 1023) / 1024;
    first_place(&[
        unless_at(entity < 64, 0),
        unless_at(1 <= length && length <= MOST_LENGTH, 4),
        unless_at(1 <= version && version <= LAST_NUMBER && last < version, 8),
        stamp_fault(entity, version, body),
        blocks_fault(count, need, &blocks_in(body)),
        nonzero_from(body, 560),
    ])
}

// The stamp of the record.
fn stamp_in(body: &[u8; 1024]) -> [u64; 64]
    ensures { result ≡ (record_in body.now).stamp }
{
    let mut stamp = [0; 64];
    for y in 0..64 {
        stamp[y] = u64_at(body, 16 + 8 * y);
    }
    stamp
}

// The record of a body.
fn record_of(body: &[u8; 1024]) -> Rec
    requires { number_at 0 4 body.now < 64 }
    ensures { result ≡ record_in body.now }
{
    let number = u32_at(body, 0) as u8;
    Rec {
        entity: Entity::new(number).unwrap(),
        version: u64_at(body, 8),
        stamp: stamp_in(body),
        length: u32_at(body, 4),
        blocks: blocks_in(body),
    }
}

/// The record of a body that stands behind these records of the log, in an image of so many blocks; or the body's first
/// bad byte. It goes over `before` once.
pub fn read_body(count: u32, before: &[Rec], body: &[u8; 1024]) -> Result<Rec, u16>
    ensures good { OnOk result (fault_of count before.now body.now ≡ None) }
    ensures read { IfOk result (λ rec. rec ≡ record_in body.now) }
    ensures bad { IfErr result (λ place. fault_of count before.now body.now ≡ Some place) }
{
    match body_fault(count, before, body) {
        Some(place) => Err(place),
        None => Ok(record_of(body)),
    }
}
