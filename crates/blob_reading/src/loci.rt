//! Loci.
ghost use Rattle.std.specs.Prelude.{IfOk, IfErr};
ghost use Rattle.base_types.specs.declared.entities.Kind.TheVariants.{Locus as LocusKind};
ghost use Rattle.blob_grammar.specs.Forms.{IsSpelling};
ghost use Rattle.blob_facts.specs.Fields.{IsFound, IsRefused};
ghost use Rattle.blob_facts.specs.Loci.{IsLocusSpelled};
ghost use Rattle.blob_reading.specs.Places.{IsBadBlob};

use crate::calls::{read_calls, read_condition, read_registers};
use crate::fields::{Parsed, read_byte, read_number};
use crate::forms::{read_form, read_printed};
use crate::lists::read_code;
use crate::places::{BadBlob, place_of};
use crate::privates::read_privates;
use crate::slots::read_caps;
use crate::walks::read_walk;
use base_types::{Entity, Instr, MOST_ENTITIES};
use blob_facts::{Chain, Code, Locus, MOST_INSTRS, Privates};
use data_capabilities::CapList;

/// A locus.
fn read_fields<'a>(bytes: &'a [u8]) -> Parsed<'a, Locus>
    ensures read { IfOk result (λ r. IsFound IsLocusSpelled bytes.now r.0 r.1.now) }
    ensures refused { IfErr result (λ stuck. IsRefused (IsSpelling LocusKind) bytes.now stuck.rest.now) }
{
    let (form, rest) = read_form(bytes)?;
    let (every, rest) = read_number(rest, 4, 0, u32::MAX as u64)?;
    let (condition, rest) = read_condition(rest)?;
    let (host, rest) = read_byte(rest, 0, MOST_ENTITIES - 1)?;
    let (place, rest) = read_byte(rest, 0, MOST_INSTRS as u8)?;
    let mut registers = [0; 8];
    let (all_registers, rest) = read_registers(rest, &mut registers)?;
    let (printed, rest) = read_printed(rest, form)?;
    let mut instrs = [Instr::Halt; MOST_INSTRS];
    let (count, rest) = read_code(rest, &mut instrs)?;
    let mut chain = Chain::new();
    let most_calls = form.most_calls();
    let (all_calls, rest) = read_calls(rest, most_calls, &mut chain)?;
    let mut privates = Privates::new();
    let calls = chain.as_slice().len();
    let least = form.least_privates(printed, calls);
    let most = form.most_privates();
    let (all_privates, rest) = read_privates(rest, least, most, &mut privates)?;
    let mut caps = CapList::new();
    let (all_caps, rest) = read_caps(rest, &mut caps)?;
    let (walk, rest) = match read_walk(rest) {
        Ok(read) => read,
        Err(stuck) => return Err(stuck),
    };
    let locus = Locus {
        registers,
        place,
        code: Code::new(&instrs[..count as usize]),
        host: Entity::of(host),
        chain,
        privates,
        caps,
        walk,
        condition,
        every: every as u32,
        printed,
    };
    Ok((locus, rest))
}

/// Reads the blob of a locus. It takes no memory, and looks at each byte at most twice.
pub fn read_locus(bytes: &[u8]) -> Result<Locus, BadBlob>
    ensures read { IfOk result (λ l. IsLocusSpelled l bytes.now) }
    ensures refused { IfErr result (IsBadBlob LocusKind bytes.now) }
{
    let (locus, rest) = match read_fields(bytes) {
        Ok(read) => read,
        Err(stuck) => return Err(BadBlob::Malformed(place_of(bytes, stuck.rest))),
    };
    if !rest.is_empty() {
        return Err(BadBlob::TooLong(place_of(bytes, rest)));
    }
    Ok(locus)
}
