ghost use Rattle.std.specs.Prelude.{◌≡◌, ◌/◌};
ghost use Rattle.model_kernel.specs.Outcomes.{look_address, moved_address, through as gone_through};
ghost use Rattle.model_kernel.specs.Words.{denied};
ghost use Rattle.model_acts.specs.Views.{view_of, walked, IsReadyLocus, ShowsPage};

use crate::checks::denial;
use crate::reads::private_at;
use crate::view::LocusView;
use base_types::{MOST_HOPS, PAGE_WORDS, Region, Reply, Rights, Walk};

/// The address seen through a region that shows its page.
fn moved(region: &Region, address: u64) -> u64
    requires { ShowsPage region.now (address / PAGE_WORDS) }
    ensures { result ≡ moved_address region.now address }
{
    let page = address / PAGE_WORDS - region.at as u64 + region.from as u64;
    page * PAGE_WORDS + address % PAGE_WORDS
}

/// The address in the container of the locus's next look: where a walk stands, and at its begin what a private region
/// of the present host shows, or else the address itself.
pub fn next_address(l: &LocusView, address: u64) -> u64
    requires { IsReadyLocus (view_of l.now) }
    ensures { result ≡ look_address (view_of l.now) address }
{
    match l.walk {
        Some(walk) => walk.address,
        None => match private_at(l, address / PAGE_WORDS) {
            Some(p) => moved(&p.region, address),
            None => address,
        },
    }
}

/// The walk behind a region of the container that shows the address: one hop more, at the region's target. A denial
/// where the region lacks a right that is needed, else Deep where the walk has made 63 hops.
pub fn next_walk(
    l: &LocusView,
    region: &Region,
    address: u64,
    needed: Rights,
) -> Result<Walk, Reply>
    requires { ShowsPage region.now (address / PAGE_WORDS) }
    ensures { walked (view_of l.now) result ≡ gone_through (view_of l.now) region.now address (denied region.now.rights.0 needed.0) }
{
    if let Some(reply) = denial(region.rights, needed) {
        return Err(reply);
    }
    let hops = match l.walk {
        Some(walk) => walk.hops,
        None => 0,
    };
    if hops >= MOST_HOPS {
        return Err(Reply::Deep);
    }
    Ok(Walk {
        at: region.target,
        address: moved(region, address),
        hops: hops + 1,
    })
}
