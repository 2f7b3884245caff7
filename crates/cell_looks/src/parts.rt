// A look on the parts of two cells.
ghost use Rattle.std.specs.Prelude.{◌≡◌, ◌↔◌, ℕ, List, Some, IfOk, IsErrOf, OnErr};
ghost use Rattle.cell_states.specs.model_kernel.Acts.{wanted};
ghost use Rattle.cell_states.specs.model_kernel.Outcomes.{outcome};
ghost use Rattle.cell_states.specs.model_kernel.Refusals.{instr_at};
ghost use Rattle.cell_states.specs.model_kernel.State.{AtlasState, LocusCell, LocusState, Supply};
ghost use Rattle.act_look.specs.model_acts.Views.{IsReadyLocus};
ghost use Rattle.act_look.specs.act_alone.Loci.{locus_of};
ghost use Rattle.act_look.specs.act_alone.declared.loci.Locus.{Locus as ALocus};
ghost use Rattle.act_look.specs.act_invoke.Entries.{WantsBeside};
ghost use Rattle.act_look.specs.edge_disk.declared.disk.NoBlocks.{NoBlocks};
ghost use Rattle.act_look.specs.page_memory.Calls.{PagesOnce};
ghost use Rattle.act_look.specs.Looks.{is_look};
ghost use Rattle.cell_states.specs.Cells.{part_of, IsRunning};
ghost use Rattle.cell_looks.specs.Looking.{ComesToWord, IsLookShortIn, LeavesMemoryIn, MakesLook, MakesSomehow, MayLookIn, TurnsPart};

use act_look::{Locus, look};
use base_types::{Answer, Instr};
use cell_states::{PageFault, PageStore, Part, Storage};
use edge_managers::{Gate, Policy, Supplier};

/// The look of a locus at a container, with its memory.
fn look_at_storage<B: PageStore, S: Supplier, P: Policy>(
    locus: &mut Locus,
    storage: &mut Storage,
    instr: Instr,
    store: &mut B,
    gate: &Gate<S, P>,
) -> Result<Answer, PageFault>
    requires keeps { S.keeps gate.now.supply }
    requires ready { IsReadyLocus (locus_of locus.old) }
    requires wants { (x : ℕ) × WantsBeside is_look (locus_of locus.old) x }
    requires instr { instr ≡ instr_at (locus_of locus.old) }
    requires memory { MayLookIn (S.word gate.now.supply) B.PageStore store.old (Part.Container storage.old) }
    ensures looked { B.tells → IfOk result (λ answer. (me : ℕ) → (s : Supply) → (a : AtlasState)
        → MakesLook (outcome s (locus_of locus.old) (wanted me (locus_of locus.old)) a (part_of (S.word gate.now.supply) (B.words store.old) (Part.Container storage.old)))
        (LocusCell (locus_of locus.new)) (part_of (S.word gate.now.supply) (B.words store.old) (Part.Container storage.old)) (part_of (S.word gate.now.supply) (B.words store.new) (Part.Container storage.new)) answer) }
    ensures somehow { IfOk result (MakesSomehow (Part.Locus (Some locus.old)) (Part.Locus (Some locus.new)) (Part.Container storage.old) (Part.Container storage.new)) }
    ensures at_word { OnErr result (ComesToWord (locus_of locus.old) (Part.Container storage.old)) }
    ensures no_blocks { (n : NoBlocks) → IsErrOf result (PageFault.NoBlocks n) ↔ IsLookShortIn B.PageStore store.old (Part.Locus (Some locus.old)) (Part.Container storage.old) n }
    ensures turned { (n : NoBlocks) → IsErrOf result (PageFault.NoBlocks n) → TurnsPart (Part.Container storage.old) (Part.Container storage.new) }
    ensures locus_stays { OnErr result (locus.new ≡ locus.old) }
    ensures other_stays { B.tells → OnErr result (part_of (S.word gate.now.supply) (B.words store.new) (Part.Container storage.new) ≡ part_of (S.word gate.now.supply) (B.words store.old) (Part.Container storage.old)) }
    ensures memory { LeavesMemoryIn (S.word gate.now.supply) B.PageStore (Part.Container storage.old) (Part.Container storage.new) store.old store.new }
    ensures pages { PagesOnce B.PageStore store.old store.new result }
{
    match &storage.head {
        Some(head) => look(locus, head, &mut storage.memory, instr, store, gate),
        None => unreachable!(),
    }
}

/// The look of a locus at the container of a cell.
fn look_at_part<B: PageStore, S: Supplier, P: Policy>(
    locus: &mut Locus,
    other: &mut Part,
    instr: Instr,
    store: &mut B,
    gate: &Gate<S, P>,
) -> Result<Answer, PageFault>
    requires keeps { S.keeps gate.now.supply }
    requires ready { IsReadyLocus (locus_of locus.old) }
    requires wants { (x : ℕ) × WantsBeside is_look (locus_of locus.old) x }
    requires instr { instr ≡ instr_at (locus_of locus.old) }
    requires memory { MayLookIn (S.word gate.now.supply) B.PageStore store.old other.old }
    ensures looked { B.tells → IfOk result (λ answer. (me : ℕ) → (s : Supply) → (a : AtlasState)
        → MakesLook (outcome s (locus_of locus.old) (wanted me (locus_of locus.old)) a (part_of (S.word gate.now.supply) (B.words store.old) other.old))
        (LocusCell (locus_of locus.new)) (part_of (S.word gate.now.supply) (B.words store.old) other.old) (part_of (S.word gate.now.supply) (B.words store.new) other.new) answer) }
    ensures somehow { IfOk result (MakesSomehow (Part.Locus (Some locus.old)) (Part.Locus (Some locus.new)) other.old other.new) }
    ensures at_word { OnErr result (ComesToWord (locus_of locus.old) other.old) }
    ensures no_blocks { (n : NoBlocks) → IsErrOf result (PageFault.NoBlocks n) ↔ IsLookShortIn B.PageStore store.old (Part.Locus (Some locus.old)) other.old n }
    ensures turned { (n : NoBlocks) → IsErrOf result (PageFault.NoBlocks n) → TurnsPart other.old other.new }
    ensures locus_stays { OnErr result (locus.new ≡ locus.old) }
    ensures other_stays { B.tells → OnErr result (part_of (S.word gate.now.supply) (B.words store.new) other.new ≡ part_of (S.word gate.now.supply) (B.words store.old) other.old) }
    ensures memory { LeavesMemoryIn (S.word gate.now.supply) B.PageStore other.old other.new store.old store.new }
    ensures pages { PagesOnce B.PageStore store.old store.new result }
{
    match other {
        Part::Container(storage) => look_at_storage(locus, storage, instr, store, gate),
        _ => unreachable!(),
    }
}

/// The same, of the locus of a cell.
pub(crate) fn look_in_parts<B: PageStore, S: Supplier, P: Policy>(
    part: &mut Part,
    other: &mut Part,
    instr: Instr,
    store: &mut B,
    gate: &Gate<S, P>,
) -> Result<Answer, PageFault>
    requires keeps { S.keeps gate.now.supply }
    requires wants { (l : ALocus) × IsRunning part.old l × (x : ℕ) × WantsBeside is_look (locus_of l) x × (instr ≡ instr_at (locus_of l)) }
    requires memory { MayLookIn (S.word gate.now.supply) B.PageStore store.old other.old }
    ensures looked { B.tells → IfOk result (λ answer. (me : ℕ) → (s : Supply) → (words : ℕ → List ℕ) → (l : LocusState) → (a : AtlasState)
        → part_of s words part.old ≡ LocusCell l
        → MakesLook (outcome s l (wanted me l) a (part_of (S.word gate.now.supply) (B.words store.old) other.old))
        (part_of s words part.new) (part_of (S.word gate.now.supply) (B.words store.old) other.old) (part_of (S.word gate.now.supply) (B.words store.new) other.new) answer) }
    ensures somehow { IfOk result (MakesSomehow part.old part.new other.old other.new) }
    ensures at_word { OnErr result ((s : Supply) → (words : ℕ → List ℕ) → (l : LocusState) → part_of s words part.old ≡ LocusCell l → ComesToWord l other.old) }
    ensures no_blocks { (n : NoBlocks) → IsErrOf result (PageFault.NoBlocks n) ↔ IsLookShortIn B.PageStore store.old part.old other.old n }
    ensures turned { (n : NoBlocks) → IsErrOf result (PageFault.NoBlocks n) → TurnsPart other.old other.new }
    ensures locus_stays { OnErr result (part.new ≡ part.old) }
    ensures other_stays { B.tells → OnErr result (part_of (S.word gate.now.supply) (B.words store.new) other.new ≡ part_of (S.word gate.now.supply) (B.words store.old) other.old) }
    ensures memory { LeavesMemoryIn (S.word gate.now.supply) B.PageStore other.old other.new store.old store.new }
    ensures pages { PagesOnce B.PageStore store.old store.new result }
{
    match part {
        Part::Locus(Some(locus)) => look_at_part(locus, other, instr, store, gate),
        _ => unreachable!(),
    }
}
