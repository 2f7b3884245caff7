//! Laws of an opening. The functions do nothing: the contract of each is a law.
ghost use Rattle.open_facts.specs.Keeping.{KeepingLaw};
ghost use Rattle.open_facts.specs.Opened.{KeptLaw, OwnedLaw, PlacedLaw, SpeltLaw};

use edge_disk::Disk;

/// Whatever a stop leaves while the log of an image is turned to its chosen records means what the image means.
pub fn keeping_law()
    ensures { KeepingLaw }
{}

/// Of an image that was read the chosen records may be kept with their page tables: their blocks are of the image's pool, and stand
/// with zeros behind the blobs. A store that keeps them keeps the image's chosen records, and its blocks have one owner each.
pub fn opened_law<D: Disk>()
    ensures placed { PlacedLaw D }
    ensures spelt { SpeltLaw D }
    ensures kept { KeptLaw D }
    ensures owned { OwnedLaw D }
{}
