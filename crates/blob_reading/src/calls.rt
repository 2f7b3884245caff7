//! Registers, condition and calls of a locus.
ghost use Rattle.std.specs.Prelude.{◌≡◌, ◌≤◌, [], IfOk, IfErr};
ghost use Rattle.blob_facts.specs.Fields.{IsFound, IsRefused, Spells};
ghost use Rattle.blob_facts.specs.Loci.{AreCallsSpelled, AreRegistersSpelled, IsCallSpelled, IsConditionSpelled};

use crate::fields::{Parsed, read_byte, read_number};
use base_types::{Call, Condition, Entity, MOST_CALLS, MOST_ENTITIES};
use blob_facts::{Chain, MOST_INSTRS};

/// The registers of a locus.
const REGISTERS: usize = 8;

/// The byte of a locus that runs.
const RUNNING: u8 = 0;

/// The byte of a locus that is stopped.
const STOPPED: u8 = 1;

/// The byte of a locus that has halted.
const HALTED: u8 = 2;

/// The condition of a locus.
pub(crate) fn read_condition<'a>(bytes: &'a [u8]) -> Parsed<'a, Condition>
    ensures read { IfOk result (λ r. IsFound IsConditionSpelled bytes.now r.0 r.1.now) }
    ensures refused { IfErr result (λ stuck. IsRefused (Spells IsConditionSpelled) bytes.now stuck.rest.now) }
{
    let (condition, rest) = read_byte(bytes, RUNNING, HALTED)?;
    match condition {
        RUNNING => Ok((Condition::Running, rest)),
        STOPPED => Ok((Condition::Stopped, rest)),
        _ => Ok((Condition::Halted, rest)),
    }
}

/// Puts what stands in the registers of a locus into these.
pub(crate) fn read_registers<'a>(bytes: &'a [u8], registers: &mut [u64; 8]) -> Parsed<'a, ()>
    ensures read { IfOk result (λ r. IsFound AreRegistersSpelled bytes.now registers.new r.1.now) }
    ensures refused { IfErr result (λ stuck. IsRefused (Spells AreRegistersSpelled) bytes.now stuck.rest.now) }
{
    let mut rest = bytes;
    for place in 0..REGISTERS {
        let (value, behind) = match read_number(rest, 8, 0, u64::MAX) {
            Ok(read) => read,
            Err(stuck) => return Err(stuck),
        };
        registers[place] = value;
        rest = behind;
    }
    Ok(((), rest))
}

/// A call: its container, and a place of the code or the one behind it.
fn read_call<'a>(bytes: &'a [u8]) -> Parsed<'a, Call>
    ensures read { IfOk result (λ r. IsFound IsCallSpelled bytes.now r.0 r.1.now) }
    ensures refused { IfErr result (λ stuck. IsRefused (Spells IsCallSpelled) bytes.now stuck.rest.now) }
{
    let (container, rest) = read_byte(bytes, 0, MOST_ENTITIES - 1)?;
    let (place, rest) = read_byte(rest, 0, MOST_INSTRS as u8)?;
    let call = Call {
        container: Entity::of(container),
        place,
    };
    Ok((call, rest))
}

/// Fills an empty chain with at most so many calls. Where they are refused, the chain has some of them.
pub(crate) fn read_calls<'a>(bytes: &'a [u8], most: u8, chain: &mut Chain) -> Parsed<'a, ()>
    requires few { most ≤ MOST_CALLS }
    requires empty { chain.old ≡ [] }
    ensures read { IfOk result (λ r. IsFound (AreCallsSpelled most) bytes.now chain.new r.1.now) }
    ensures refused { IfErr result (λ stuck. IsRefused (Spells (AreCallsSpelled most)) bytes.now stuck.rest.now) }
{
    let (count, mut rest) = read_byte(bytes, 0, most)?;
    for place in 0..count {
        let (call, behind) = match read_call(rest) {
            Ok(read) => read,
            Err(stuck) => return Err(stuck),
        };
        chain.push(call);
        rest = behind;
    }
    Ok(((), rest))
}
