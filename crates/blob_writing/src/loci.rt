// Loci.
ghost use Rattle.std.specs.Prelude.{◌≡◌, ◌≤◌, ◌+◌, ◌++◌, length};
ghost use Rattle.base_bytes.specs.Blobs.{HasRoom};
ghost use Rattle.blob_grammar.specs.Spelling.{condition_number, is_short, locus_blob, locus_front, locus_rest, walk_bytes};
ghost use Rattle.blob_facts.specs.act_alone.Loci.{locus_of};

use crate::lists::{put_caps, put_chain, put_code, put_privates};
use crate::numbers::put_registers;
use base_bytes::Blob;
use base_types::{Condition, Walk};
use blob_facts::Locus;
use blob_grammar::{LONG_LOCUS, SHORT_CALLS, SHORT_LOCUS, SHORT_PRIVATES};

/// The bytes of a walk at most.
const WALK_BYTES: usize = 11;

/// The bytes from `every` up to the registers.
const FRONT_BYTES: usize = 71;

/// The bytes from the code on at most.
const REST_BYTES: usize = 2399;

fn condition_number(condition: Condition) -> u8
    ensures { result ≡ condition_number condition }
{
    match condition {
        Condition::Running => 0,
        Condition::Stopped => 1,
        Condition::Halted => 2,
    }
}

fn put_walk(walk: &Option<Walk>, blob: &mut Blob)
    requires { HasRoom blob.old WALK_BYTES }
    ensures { blob.new ≡ blob.old ++ walk_bytes walk.now }
{
    match walk {
        Some(walk) => {
            blob.push(1);
            blob.push(walk.at.number());
            blob.put_u64(walk.address);
            blob.push(walk.hops);
        }
        None => blob.push(0),
    }
}

/// Whether the locus has the short form.
fn is_short(locus: &Locus) -> bool
    ensures { result ≡ is_short (locus_of locus.now) }
{
    locus.printed == 0
        && locus.chain.as_slice().len() <= SHORT_CALLS as usize
        && locus.privates.as_slice().len() <= SHORT_PRIVATES as usize
}

/// From `every` up to the registers.
fn put_front(locus: &Locus, blob: &mut Blob)
    requires { HasRoom blob.old FRONT_BYTES }
    ensures front { blob.new ≡ blob.old ++ locus_front (locus_of locus.now) }
    ensures most { length blob.new ≤ length blob.old + FRONT_BYTES }
{
    blob.put_u32(locus.every);
    blob.push(condition_number(locus.condition));
    blob.push(locus.host.number());
    blob.push(locus.place);
    put_registers(&locus.registers, blob);
}

/// From the code on.
fn put_rest(locus: &Locus, blob: &mut Blob)
    requires { HasRoom blob.old REST_BYTES }
    ensures { blob.new ≡ blob.old ++ locus_rest (locus_of locus.now) }
{
    put_code(&locus.code, blob);
    put_chain(&locus.chain, blob);
    put_privates(&locus.privates, blob);
    put_caps(&locus.caps, blob);
    put_walk(&locus.walk, blob);
}

/// Writes a locus in place of what was in the blob: in the short form where it has printed nothing, and has at most 32
/// calls and 8 private regions, and else in the long one.
pub fn write_locus(locus: &Locus, blob: &mut Blob)
    ensures { blob.new ≡ locus_blob (locus_of locus.now) }
{
    blob.clear();
    if is_short(locus) {
        blob.push(SHORT_LOCUS);
        put_front(locus, blob);
    } else {
        blob.push(LONG_LOCUS);
        put_front(locus, blob);
        blob.put_u64(locus.printed);
    }
    put_rest(locus, blob);
}
