//! One look of a load or a store that a locus wants: at a word of a container, or at a region that shows another's.
#![tactic(auto)]

ghost use Rattle.std.specs.Prelude.{◌≡◌, ◌/◌, ℕ, false, true, IfOk, IsOk, OnErr};
ghost use Rattle.act_invoke.specs.model_kernel.Acts.{wanted};
ghost use Rattle.act_invoke.specs.model_kernel.Outcomes.{outcome};
ghost use Rattle.act_invoke.specs.model_kernel.Refusals.{instr_at};
ghost use Rattle.act_invoke.specs.model_kernel.State.{AtlasState, ContainerCell, Supply};
ghost use Rattle.act_invoke.specs.model_acts.Views.{IsReadyLocus};
ghost use Rattle.act_invoke.specs.act_alone.Loci.{container_with, locus_of};
ghost use Rattle.act_invoke.specs.Entries.{WantsBeside};
ghost use Rattle.page_memory.specs.Words.{AreCleanTrue, IsSoundTable, words_of};
ghost use Rattle.page_memory.specs.Calls.{Counts, KeepsBlocks, KeepsIn, MakesRoomIn, MarksOne, PagesOnce};
ghost use Rattle.act_look.specs.Looks.{address_of, comes_to_word, is_look, is_store, IsMemoryOf, Looked, LooksSomehow};

use crate::aim::aim_of;
use crate::shown::shown;
use crate::word::at_word;
pub use act_invoke::{Act, Head, Locus};
use base_types::{Answer, Instr, PAGE_WORDS};
use edge_managers::{Gate, Policy, Supplier};
use page_memory::{PageFault, PageStore, PagedMemory};

mod aim;
mod shown;
mod word;

/// Makes the look of the load or the store that the locus wants, which is this instruction, at the container with this head
/// and this memory.
///
/// A begun walk looks where it stands. A new one looks at the target of the private region that was made in the
/// locus's host and covers the page, or else at the host. There the first case that holds decides: a page at or past
/// the size, NoPage; a region that covers the page and lacks the right, Denied; 63 hops made, Deep; a region, one hop
/// to its target; else the word is read or written. All but the hop end the walk.
///
/// A fault is one of a load or a store of the memory. The locus and the words are then as before, so the same look can
/// be tried again.
///
/// It looks at each private region of the locus and each region of the container once, and costs as much as a load or
/// a store of the memory where it comes to the word.
pub fn look<B: PageStore, S: Supplier, P: Policy>(
    locus: &mut Locus,
    head: &Head,
    memory: &mut PagedMemory,
    instr: Instr,
    store: &mut B,
    gate: &Gate<S, P>,
) -> Result<Answer, PageFault>
    requires keeps { S.keeps gate.now.supply }
    requires ready { IsReadyLocus (locus_of locus.old) }
    requires instr { instr ≡ instr_at (locus_of locus.old) }
    requires wants { (x : ℕ) × WantsBeside is_look (locus_of locus.old) x }
    requires memory { IsMemoryOf head.now memory.old }
    requires table { IsSoundTable (B.held store.old) memory.old }
    requires clean { B.tells → AreCleanTrue (S.word gate.now.supply) (B.words store.old) memory.old }
    ensures looked { B.tells → IfOk result (λ answer. (me : ℕ) → (s : Supply) → (a : AtlasState)
        → Looked (outcome s (locus_of locus.old) (wanted me (locus_of locus.old)) a (ContainerCell (container_with (words_of (S.word gate.now.supply) (B.words store.old) memory.old) head.now))) (locus_of locus.new) answer
        (container_with (words_of (S.word gate.now.supply) (B.words store.old) memory.old) head.now) (container_with (words_of (S.word gate.now.supply) (B.words store.new) memory.new) head.now)) }
    ensures somehow { IfOk result (LooksSomehow (locus_of locus.old) (locus_of locus.new) head.now) }
    ensures ready { IsReadyLocus (locus_of locus.new) }
    ensures failed { OnErr result ((locus.new ≡ locus.old) × (B.tells → words_of (S.word gate.now.supply) (B.words store.new) memory.new ≡ words_of (S.word gate.now.supply) (B.words store.old) memory.old)) }
    ensures untouched { comes_to_word head.now (address_of (locus_of locus.old)) ≡ false → IsOk result × (memory.new ≡ memory.old) × (store.new ≡ store.old) }
    ensures clean { B.tells → AreCleanTrue (S.word gate.now.supply) (B.words store.new) memory.new }
    ensures table { IsSoundTable (B.held store.new) memory.new }
    ensures others { KeepsIn B.PageStore memory.old memory.new store.old store.new }
    ensures blocks { KeepsBlocks (B.kept_names store.old) memory.old memory.new }
    ensures room { comes_to_word head.now (address_of (locus_of locus.old)) ≡ true → MakesRoomIn B.PageStore store.old memory.old memory.new (address_of (locus_of locus.old) / PAGE_WORDS) result }
    ensures marks { comes_to_word head.now (address_of (locus_of locus.old)) ≡ true → MarksOne (is_store (instr_at (locus_of locus.old))) memory.old memory.new (address_of (locus_of locus.old) / PAGE_WORDS) result }
    ensures counts { comes_to_word head.now (address_of (locus_of locus.old)) ≡ true → Counts B.PageStore memory.old memory.new (address_of (locus_of locus.old) / PAGE_WORDS) store.old store.new }
    ensures pages { PagesOnce B.PageStore store.old store.new result }
{
    let aim = aim_of(locus, instr);
    if let Some(answer) = shown(locus, head, aim.address, aim.access.needed()) {
        return Ok(answer);
    }
    at_word(locus, memory, store, gate, aim)
}
