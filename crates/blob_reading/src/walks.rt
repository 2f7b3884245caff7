//! The walk of a locus.
ghost use Rattle.std.specs.Prelude.{IfOk, IfErr};
ghost use Rattle.blob_facts.specs.Fields.{IsFound, IsRefused, Spells};
ghost use Rattle.blob_facts.specs.Loci.{IsWalkSpelled};

use crate::fields::{Parsed, read_byte, read_number};
use base_types::{Entity, MOST_ENTITIES, MOST_HOPS, Walk};

/// The byte of a locus that is on no walk.
const NO_WALK: u8 = 0;

/// The byte before a walk.
const ON_A_WALK: u8 = 1;

/// The walk of a locus, or none.
pub(crate) fn read_walk<'a>(bytes: &'a [u8]) -> Parsed<'a, Option<Walk>>
    ensures read { IfOk result (λ r. IsFound IsWalkSpelled bytes.now r.0 r.1.now) }
    ensures refused { IfErr result (λ stuck. IsRefused (Spells IsWalkSpelled) bytes.now stuck.rest.now) }
{
    let (kind, rest) = read_byte(bytes, NO_WALK, ON_A_WALK)?;
    if kind == NO_WALK {
        return Ok((None, rest));
    }
    let (at, rest) = read_byte(rest, 0, MOST_ENTITIES - 1)?;
    let (address, rest) = read_number(rest, 8, 0, u64::MAX)?;
    let (hops, rest) = read_byte(rest, 1, MOST_HOPS)?;
    let walk = Walk {
        at: Entity::of(at),
        address,
        hops,
    };
    Ok((Some(walk), rest))
}
