// Lists, with the number of their items in a byte before them.
ghost use Rattle.std.specs.Prelude.{◌≡◌, ◌≤◌, ◌+◌, ◌++◌, length};
ghost use Rattle.base_bytes.specs.Blobs.{HasRoom};
ghost use Rattle.blob_grammar.specs.Spelling.{call_bytes, caps_bytes, instr_bytes, listed, private_bytes, region_bytes, used_slots};

use crate::instructions::put_instr;
use crate::parts::{put_call, put_private, put_region, put_slot};
use base_bytes::Blob;
use base_types::Cap;
use blob_facts::{Chain, Code, Privates};
use data_capabilities::{CapList, SLOTS};
use data_regions::RegionMap;

/// The bytes of a code at most: one, and 16 for each of 128 instructions.
pub(crate) const CODE_BYTES: usize = 2049;

/// The bytes of the regions at most: one, and 6 for each of 16.
pub(crate) const REGIONS_BYTES: usize = 97;

/// The bytes of a chain at most: one, and 2 for each of 64 calls.
pub(crate) const CHAIN_BYTES: usize = 129;

/// The bytes of the private regions at most: one, and 7 for each of 16.
pub(crate) const PRIVATES_BYTES: usize = 113;

/// The bytes of the capabilities at most: one, and 3 for each of 32.
pub(crate) const CAPS_BYTES: usize = 97;

pub(crate) fn put_code(code: &Code, blob: &mut Blob)
    requires { HasRoom blob.old CODE_BYTES }
    ensures code { blob.new ≡ blob.old ++ listed instr_bytes code.now }
    ensures most { length blob.new ≤ length blob.old + CODE_BYTES }
{
    let instrs = code.as_slice();
    blob.push(instrs.len() as u8);
    for instr in instrs {
        put_instr(instr, blob);
    }
}

pub(crate) fn put_regions(map: &RegionMap<16>, blob: &mut Blob)
    requires { HasRoom blob.old REGIONS_BYTES }
    ensures regions { blob.new ≡ blob.old ++ listed region_bytes map.now }
    ensures most { length blob.new ≤ length blob.old + REGIONS_BYTES }
{
    let regions = map.as_slice();
    blob.push(regions.len() as u8);
    for region in regions {
        put_region(region, blob);
    }
}

pub(crate) fn put_chain(chain: &Chain, blob: &mut Blob)
    requires { HasRoom blob.old CHAIN_BYTES }
    ensures calls { blob.new ≡ blob.old ++ listed call_bytes chain.now }
    ensures most { length blob.new ≤ length blob.old + CHAIN_BYTES }
{
    let calls = chain.as_slice();
    blob.push(calls.len() as u8);
    for call in calls {
        put_call(call, blob);
    }
}

pub(crate) fn put_privates(privates: &Privates, blob: &mut Blob)
    requires { HasRoom blob.old PRIVATES_BYTES }
    ensures privates { blob.new ≡ blob.old ++ listed private_bytes privates.now }
    ensures most { length blob.new ≤ length blob.old + PRIVATES_BYTES }
{
    let items = privates.as_slice();
    blob.push(items.len() as u8);
    for item in items {
        put_private(item, blob);
    }
}

/// How many slots are used.
fn number_used(caps: &[Option<Cap>]) -> u8
    requires { length caps.now ≤ SLOTS }
    ensures { result ≡ length (used_slots 0 caps.now) }
{
    let mut used = 0;
    for held in caps {
        match held {
            Some(_) => used += 1,
            None => {}
        }
    }
    used
}

/// The slots that are used, from the lowest on.
pub(crate) fn put_caps(list: &CapList, blob: &mut Blob)
    requires { HasRoom blob.old CAPS_BYTES }
    ensures caps { blob.new ≡ blob.old ++ caps_bytes list.now }
    ensures most { length blob.new ≤ length blob.old + CAPS_BYTES }
{
    let caps = list.slots();
    blob.push(number_used(caps));
    for (slot, held) in caps.iter().enumerate() {
        match held {
            Some(cap) => put_slot(slot as u8, cap, blob),
            None => {}
        }
    }
}
