// What a copy has of a container, beside its words.
ghost use Rattle.std.specs.Prelude.{◌≡◌, ℕ};
ghost use Rattle.cell_births.specs.act_alone.Loci.{container_with};
ghost use Rattle.model_copies.specs.Copies.{copied_container};

use act_alone::{Code, Head};
use data_capabilities::CapList;
use data_regions::RegionMap;

/// The regions again.
fn copy_regions(regions: &RegionMap<16>) -> RegionMap<16>
    ensures { result ≡ regions.now }
{
    let items = regions.as_slice();
    let mut copy = RegionMap::new();
    for i in (0..items.len()).rev() {
        let region = items[i];
        let _ = copy.add(region);
    }
    copy
}

/// The container again, without capabilities.
pub fn copy_head(head: &Head) -> Head
    ensures { (words : ℕ → ℕ) → container_with words result ≡ copied_container (container_with words head.now) }
{
    Head {
        pages: head.pages,
        tag: head.tag,
        every: head.every,
        entry: head.entry,
        code: Code::new(head.code.as_slice()),
        regions: copy_regions(&head.regions),
        caps: CapList::new(),
    }
}
