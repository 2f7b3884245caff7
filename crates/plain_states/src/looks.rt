ghost use Rattle.std.specs.Prelude.{◌≡◌, IfSome, find};
ghost use Rattle.model_kernel.specs.Outcomes.{look_address};
ghost use Rattle.model_kernel.specs.Words.{covers};
ghost use Rattle.model_acts.specs.Views.{IsReadyLocus, ShowsPage};
ghost use Rattle.plain_states.specs.Plains.{locus_of};
ghost use Rattle.model_act_facts.specs.Readiness.{IsReadyContainer};

use crate::plain::{PlainContainer, PlainLocus};
use base_types::Region;
use model_acts::covers_page;

/// The region of the container that covers the page.
pub fn region_at(c: &PlainContainer, page: u64) -> Option<Region>
    requires { IsReadyContainer c.now.pages c.now.regions.items }
    ensures region { result ≡ find (λ r. covers r page) c.now.regions.items }
    ensures shows { IfSome result (λ r. ShowsPage r page) }
{
    c.regions
        .iter()
        .copied()
        .find(|region| covers_page(region, page))
}

/// The address in the container of the next look.
pub fn next_address(l: &PlainLocus, address: u64) -> u64
    requires { IsReadyLocus (locus_of l.now) }
    ensures { result ≡ look_address (locus_of l.now) address }
{
    model_acts::next_address(&l.view(), address)
}
