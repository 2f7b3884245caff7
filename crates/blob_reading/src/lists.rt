//! Codes and page tables.
ghost use Rattle.std.specs.Prelude.{◌≡◌, ◌≤◌, take, drop, IfOk, IfErr};
ghost use Rattle.blob_facts.specs.Fields.{IsFound, IsRefused, Spells};
ghost use Rattle.blob_facts.specs.Parts.{IsCodeSpelled, IsTableSpelled};

use crate::fields::{Parsed, read_byte, read_number};
use crate::instrs::read_instr;
use base_types::{Instr, MOST_PAGES};
use blob_facts::MOST_INSTRS;

/// Puts the instructions of a code at the front of these, and tells how many there are.
pub(crate) fn read_code<'a>(bytes: &'a [u8], instrs: &mut [Instr; MOST_INSTRS]) -> Parsed<'a, u8>
    ensures read { IfOk result (λ r. IsFound IsCodeSpelled bytes.now (take r.0 instrs.new) r.1.now) }
    ensures few { IfOk result (λ r. r.0 ≤ MOST_INSTRS) }
    ensures refused { IfErr result (λ stuck. IsRefused (Spells IsCodeSpelled) bytes.now stuck.rest.now) }
{
    let (count, mut rest) = read_byte(bytes, 0, MOST_INSTRS as u8)?;
    for place in 0..count {
        let (instr, behind) = match read_instr(rest) {
            Ok(read) => read,
            Err(stuck) => return Err(stuck),
        };
        instrs[place as usize] = instr;
        rest = behind;
    }
    Ok((count, rest))
}

/// Puts the block of each page at the front of the table, for so many pages.
pub(crate) fn read_table<'a>(bytes: &'a [u8], pages: u16, table: &mut [u32; 256]) -> Parsed<'a, ()>
    requires { pages ≤ MOST_PAGES }
    ensures read { IfOk result (λ r. IsFound (IsTableSpelled pages) bytes.now (take pages table.new) r.1.now) }
    ensures others { drop pages table.new ≡ drop pages table.old }
    ensures refused { IfErr result (λ stuck. IsRefused (Spells (IsTableSpelled pages)) bytes.now stuck.rest.now) }
{
    let mut rest = bytes;
    for page in 0..pages {
        let (block, behind) = match read_number(rest, 4, 0, u32::MAX as u64) {
            Ok(read) => read,
            Err(stuck) => return Err(stuck),
        };
        table[page as usize] = block as u32;
        rest = behind;
    }
    Ok(((), rest))
}
