ghost use Rattle.std.specs.Prelude.{◌≡◌, ◌/◌, ◌<◌, ℕ, false, true, IfNone, IfSome};
ghost use Rattle.act_invoke.specs.model_kernel.Outcomes.{looked, through as gone_through, Outcome};
ghost use Rattle.act_invoke.specs.model_kernel.Words.{denied};
ghost use Rattle.act_invoke.specs.model_acts.Views.{IsReadyLocus, ShowsPage};
ghost use Rattle.act_invoke.specs.act_alone.Loci.{locus_of, container_with};
ghost use Rattle.act_look.specs.Looks.{comes_to_word, Shows};

use act_invoke::{Head, Locus, next_walk};
use base_types::{Answer, PAGE_WORDS, Region, Reply, Rights};

/// What a region that shows the address makes of the walk: a denial, one hop more, or the end.
fn follow(locus: &mut Locus, region: &Region, address: u64, needed: Rights) -> Answer
    requires shows { ShowsPage region.now (address / PAGE_WORDS) }
    requires place { locus.old.place < 128 }
    ensures locus { locus_of locus.new ≡ (gone_through (locus_of locus.old) region.now address (denied region.now.rights.0 needed.0)).locus }
    ensures answer { result ≡ (gone_through (locus_of locus.old) region.now address (denied region.now.rights.0 needed.0)).answer }
{
    match next_walk(&locus.view(), region, address, needed) {
        Ok(walk) => {
            locus.walk = Some(walk);
            Answer::Hop
        }
        Err(reply) => locus.finish(reply),
    }
}

/// The cases of a look that end before the word: past the pages, or at a region. None where it comes to the word, and
/// then the locus is as it was.
pub(crate) fn shown(locus: &mut Locus, head: &Head, address: u64, needed: Rights) -> Option<Answer>
    requires place { locus.old.place < 128 }
    requires ready { IsReadyLocus (locus_of locus.old) }
    ensures shows { IfSome result (λ answer. (words : ℕ → ℕ) → (done : Outcome) → Shows (looked (locus_of locus.old) (container_with words head.now) address needed.0 done) (locus_of locus.new) answer) }
    ensures done { IfNone result ((words : ℕ → ℕ) → (done : Outcome) → looked (locus_of locus.old) (container_with words head.now) address needed.0 done ≡ done) }
    ensures same { IfNone result (locus.new ≡ locus.old) }
    ensures ends { IfSome result (λ _. comes_to_word head.now address ≡ false) }
    ensures comes { IfNone result ((address / PAGE_WORDS < head.now.pages) × (comes_to_word head.now address ≡ true)) }
    ensures ready { IsReadyLocus (locus_of locus.new) }
{
    if address / PAGE_WORDS >= head.pages as u64 {
        return Some(locus.finish(Reply::NoPage));
    }
    match head.regions.covering(address / PAGE_WORDS) {
        Some(region) => Some(follow(locus, &region, address, needed)),
        None => None,
    }
}
