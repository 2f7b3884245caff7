// What stands in lists, item by item.
ghost use Rattle.std.specs.Prelude.{◌≡◌, ◌++◌, length};
ghost use Rattle.base_bytes.specs.Blobs.{HasRoom};
ghost use Rattle.blob_grammar.specs.Spelling.{region_bytes, private_bytes, call_bytes, slot_bytes};

use base_bytes::Blob;
use base_types::{Call, Cap, Private, Region};

pub(crate) fn put_region(region: &Region, blob: &mut Blob)
    requires { HasRoom blob.old (length (region_bytes region.now)) }
    ensures { blob.new ≡ blob.old ++ region_bytes region.now }
{
    blob.push(region.at);
    blob.put_u16(region.count);
    blob.push(region.target.number());
    blob.push(region.from);
    blob.push(region.rights.0);
}

pub(crate) fn put_private(private: &Private, blob: &mut Blob)
    requires { HasRoom blob.old (length (private_bytes private.now)) }
    ensures { blob.new ≡ blob.old ++ private_bytes private.now }
{
    blob.push(private.made.number());
    put_region(&private.region, blob);
}

pub(crate) fn put_call(call: &Call, blob: &mut Blob)
    requires { HasRoom blob.old (length (call_bytes call.now)) }
    ensures { blob.new ≡ blob.old ++ call_bytes call.now }
{
    blob.push(call.container.number());
    blob.push(call.place);
}

/// A capability with the number of its slot.
pub(crate) fn put_slot(slot: u8, cap: &Cap, blob: &mut Blob)
    requires { HasRoom blob.old (length (slot_bytes (record { slot = slot; cap = cap.now }))) }
    ensures { blob.new ≡ blob.old ++ slot_bytes (record { slot = slot; cap = cap.now }) }
{
    blob.push(slot);
    blob.push(cap.entity.number());
    blob.push(cap.rights.0);
}
