//! Containers without their words.
ghost use Rattle.std.specs.Prelude.{◌≡◌, ◌-◌, drop, length, replicate, take, IfOk, IfErr};
ghost use Rattle.base_types.specs.declared.entities.Kind.TheVariants.{Container};
ghost use Rattle.blob_grammar.specs.Forms.{IsSpelling};
ghost use Rattle.blob_reading.specs.Containers.{IsHeadSpelled};
ghost use Rattle.blob_facts.specs.Fields.{IsFound, IsRefused, Spells};
ghost use Rattle.blob_facts.specs.Parts.{IsEntrySpelled};
ghost use Rattle.blob_reading.specs.Places.{IsBadBlob};

use crate::fields::{Parsed, Stuck, read_byte, read_number};
use crate::lists::{read_code, read_table};
use crate::places::{BadBlob, place_of};
use crate::regions::read_regions;
use crate::slots::read_caps;
use base_types::{Instr, MOST_PAGES};
use blob_facts::{Code, Head, MOST_INSTRS};
use blob_grammar::{CONTAINER_BLOB, NO_ENTRY};
use data_capabilities::CapList;
use data_regions::RegionMap;

/// The place where a container is entered, or none.
fn read_entry<'a>(bytes: &'a [u8]) -> Parsed<'a, Option<u8>>
    ensures read { IfOk result (λ r. IsFound IsEntrySpelled bytes.now r.0 r.1.now) }
    ensures refused { IfErr result (λ stuck. IsRefused (Spells IsEntrySpelled) bytes.now stuck.rest.now) }
{
    let Some((first, rest)) = bytes.split_first() else {
        return Err(Stuck { rest: bytes });
    };
    if *first == NO_ENTRY {
        return Ok((None, rest));
    }
    if *first < MOST_INSTRS as u8 {
        return Ok((Some(*first), rest));
    }
    Err(Stuck { rest: bytes })
}

/// A container without its words; the block of each of its pages is put at the front of the table.
pub(crate) fn read_parts<'a>(bytes: &'a [u8], page_table: &mut [u32; 256]) -> Parsed<'a, Head>
    ensures read { IfOk result (λ r. IsFound (IsHeadSpelled r.0) bytes.now (take r.0.pages page_table.new) r.1.now) }
    ensures others { IfOk result (λ r. drop r.0.pages page_table.new ≡ drop r.0.pages page_table.old) }
    ensures refused { IfErr result (λ stuck. IsRefused (IsSpelling Container) bytes.now stuck.rest.now) }
{
    let (kind, rest) = read_byte(bytes, CONTAINER_BLOB, CONTAINER_BLOB)?;
    let (pages, rest) = read_number(rest, 2, 1, MOST_PAGES)?;
    let (tag, rest) = read_number(rest, 8, 0, u64::MAX)?;
    let (every, rest) = read_number(rest, 4, 0, u32::MAX as u64)?;
    let (entry, rest) = read_entry(rest)?;
    let mut instrs = [Instr::Halt; MOST_INSTRS];
    let (count, rest) = read_code(rest, &mut instrs)?;
    let mut regions = RegionMap::new();
    let (all_regions, rest) = read_regions(rest, pages as u16, &mut regions)?;
    let mut caps = CapList::new();
    let (all_caps, rest) = read_caps(rest, &mut caps)?;
    let (table, rest) = read_table(rest, pages as u16, page_table)?;
    let head = Head {
        pages: pages as u16,
        tag,
        every: every as u32,
        entry,
        code: Code::new(&instrs[..count as usize]),
        regions,
        caps,
    };
    Ok((head, rest))
}

/// A container without its words, as a blob spells it.
#[derive(Drop, Debug)]
pub struct ContainerBlob {
    pub head: Head,
    /// The block of each page, 0 for none and past the container's pages.
    pub blocks: [u32; 256],
}

/// Reads the blob of a container. It takes no memory, and looks at each byte at most twice.
pub fn read_container(bytes: &[u8]) -> Result<ContainerBlob, BadBlob>
    ensures read { IfOk result (λ c. IsHeadSpelled c.head (take c.head.pages c.blocks) bytes.now) }
    ensures none_past { IfOk result (λ c. drop c.head.pages c.blocks ≡ replicate (length c.blocks - c.head.pages) 0) }
    ensures refused { IfErr result (IsBadBlob Container bytes.now) }
{
    let mut page_table = [0; 256];
    let (head, rest) = match read_parts(bytes, &mut page_table) {
        Ok(read) => read,
        Err(stuck) => return Err(BadBlob::Malformed(place_of(bytes, stuck.rest))),
    };
    if !rest.is_empty() {
        return Err(BadBlob::TooLong(place_of(bytes, rest)));
    }
    Ok(ContainerBlob {
        head,
        blocks: page_table,
    })
}
