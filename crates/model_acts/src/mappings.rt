ghost use Rattle.std.specs.Prelude.{◌≡◌, ◌+◌, ◌<◌, ◌≤◌, None, length, insert};
ghost use Rattle.model_kernel.specs.Outcomes.{insert_private};
ghost use Rattle.model_kernel.specs.Refusals.{new_region as region_made, no_page as page_check};
ghost use Rattle.model_acts.specs.Views.{view_of};

use crate::reads::{named_entity, register};
use crate::view::LocusView;
use base_types::{Private, Region, Rights};

/// The region that a mapping makes, whose pages are within the greatest size on both sides.
pub fn new_region(l: &LocusView, a: u8, c: u8, b: u8, n: u8, rights: Rights) -> Region
    requires a { a < 8 }
    requires c { c < 8 }
    requires b { b < 8 }
    requires n { n < 8 }
    requires pages { page_check (view_of l.now) a b n ≡ None }
    ensures region { result ≡ region_made (view_of l.now) a c b n rights }
    ensures some { 1 ≤ result.count }
    ensures at { result.at + result.count ≤ 256 }
    ensures from { result.from + result.count ≤ 256 }
{
    Region {
        at: register(l, a) as u8,
        count: register(l, n) as u16,
        target: named_entity(l, c),
        from: register(l, b) as u8,
        rights,
    }
}

/// The place of a private region in a list that ascends by the host and then by the page: before the first that is
/// behind it, or the list's length.
pub fn place_of_private(new: &Private, privates: &[Private]) -> usize
    ensures within { result ≤ length privates.now }
    ensures place { insert_private new.now privates.now ≡ insert privates.now result new.now }
{
    for (place, p) in privates.iter().enumerate() {
        if new.made < p.made || new.made == p.made && new.region.at < p.region.at {
            return place;
        }
    }
    privates.len()
}
