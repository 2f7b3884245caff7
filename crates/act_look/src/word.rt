ghost use Rattle.std.specs.Prelude.{◌≡◌, ◌*◌, ◌/◌, ◌<◌, IfOk, OnErr};
ghost use Rattle.act_invoke.specs.model_acts.Views.{IsReadyLocus};
ghost use Rattle.act_invoke.specs.act_alone.declared.loci.Head.{Head};
ghost use Rattle.act_invoke.specs.act_alone.Loci.{container_with, locus_of};
ghost use Rattle.page_memory.specs.Words.{AreCleanTrue, IsSoundTable, words_of};
ghost use Rattle.page_memory.specs.Calls.{Counts, KeepsBlocks, KeepsIn, MakesRoomIn, MarksOne, PagesOnce};
ghost use Rattle.act_look.specs.Looks.{done_by, writes, Looked, NamesRegister, ReachesSomehow};

use crate::aim::{Access, Aim};
use act_invoke::Locus;
use base_types::{Answer, PAGE_WORDS, Reply};
use edge_managers::{Gate, Policy, Supplier};
use page_memory::{PageFault, PageStore, PagedMemory};

/// The look at a word: it is read or written, and the walk ends. A fault leaves the locus and the words as they were.
pub(crate) fn at_word<B: PageStore, S: Supplier, P: Policy>(
    locus: &mut Locus,
    memory: &mut PagedMemory,
    store: &mut B,
    gate: &Gate<S, P>,
    aim: Aim,
) -> Result<Answer, PageFault>
    requires keeps { S.keeps gate.now.supply }
    requires inside { aim.address < PAGE_WORDS * memory.old.pages }
    requires place { locus.old.place < 128 }
    requires ready { IsReadyLocus (locus_of locus.old) }
    requires register { NamesRegister aim.access }
    requires table { IsSoundTable (B.held store.old) memory.old }
    requires clean { B.tells → AreCleanTrue (S.word gate.now.supply) (B.words store.old) memory.old }
    ensures looked { B.tells → IfOk result (λ answer. (h : Head)
        → Looked (done_by (locus_of locus.old) (container_with (words_of (S.word gate.now.supply) (B.words store.old) memory.old) h) aim.address aim.access) (locus_of locus.new) answer
        (container_with (words_of (S.word gate.now.supply) (B.words store.old) memory.old) h) (container_with (words_of (S.word gate.now.supply) (B.words store.new) memory.new) h)) }
    ensures somehow { IfOk result (ReachesSomehow (locus_of locus.old) (locus_of locus.new) aim.address aim.access) }
    ensures ready { IsReadyLocus (locus_of locus.new) }
    ensures failed { OnErr result ((locus.new ≡ locus.old) × (B.tells → words_of (S.word gate.now.supply) (B.words store.new) memory.new ≡ words_of (S.word gate.now.supply) (B.words store.old) memory.old)) }
    ensures clean { B.tells → AreCleanTrue (S.word gate.now.supply) (B.words store.new) memory.new }
    ensures table { IsSoundTable (B.held store.new) memory.new }
    ensures others { KeepsIn B.PageStore memory.old memory.new store.old store.new }
    ensures blocks { KeepsBlocks (B.kept_names store.old) memory.old memory.new }
    ensures room { MakesRoomIn B.PageStore store.old memory.old memory.new (aim.address / PAGE_WORDS) result }
    ensures marks { MarksOne (writes aim.access) memory.old memory.new (aim.address / PAGE_WORDS) result }
    ensures counts { Counts B.PageStore memory.old memory.new (aim.address / PAGE_WORDS) store.old store.new }
    ensures pages { PagesOnce B.PageStore store.old store.new result }
{
    match aim.access {
        Access::Load(d) => {
            let word = memory.load(store, gate, aim.address)?;
            locus.registers[d as usize] = word;
            let _ = locus.finish(Reply::Ok);
            Ok(Answer::Read(word))
        }
        Access::Store(word) => {
            memory.store(store, gate, aim.address, word)?;
            Ok(locus.finish(Reply::Ok))
        }
    }
}
