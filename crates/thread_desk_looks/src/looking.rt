// One look at a locus by lent cells over a kernel's parts, told by their shares.
ghost use Rattle.std.specs.Prelude.{◌≡◌, ◌↔◌, ◌⊎◌, ◌++◌, ◌∷◌, [], None, IfSome};
ghost use Rattle.thread_looks.specs.kernel_core_facts.table_laws.Tables.{AreClean};
ghost use Rattle.thread_looks.specs.kernel_core_facts.kernel_record_facts.Cells.{words_on};
ghost use Rattle.thread_looks.specs.kernel_core_facts.kernel_commit_facts.Parts.{parts_of};
ghost use Rattle.thread_looks.specs.kernel_core_facts.kernel_commit_facts.Steady.{IsSteady};
ghost use Rattle.thread_looks.specs.thread_cell_steps.Advancing.{WantsOthers};
ghost use Rattle.thread_looks.specs.thread_commits.Lent.{OthersStay};
ghost use Rattle.thread_history.specs.Rules.{AllDiffer};
ghost use Rattle.thread_looks.specs.Looking.{LooksAsSerial, NotesLook, WantsStable};

use crate::telling::{tell_one, tell_three, tell_two};
use base_bytes::Blob;
use base_types::Entry;
use edge_disk::Disk;
use edge_managers::{Gate, Policy, Supplier};
use thread_cells::LockedCell;
use thread_history::{HistoryAuthority, Run};
use thread_looks::{Cell, Looked, Notes, Stopped, Store, look_one, look_three, look_two};
use thread_ties::{Authority, Bond};

/// The look of `look_one` by one lent cell (`thread_looks`), with all that it notes told by the cell's share.
pub(crate) fn told_one<D: Disk, B: Bond<Cell> + Run<Entry>, S: Supplier, P: Policy>(
    all: &mut Authority<Cell, B>,
    annals: &mut HistoryAuthority<Entry, B>,
    locus: &mut LockedCell<B>,
    store: &mut Store<D>,
    notes: &mut Notes,
    blob: &mut Blob,
    gate: &Gate<S, P>,
) -> Option<Result<Looked, Stopped>>
    requires keeps { S.keeps gate.now.supply }
    requires wishes { P.keeps gate.now.policy }
    requires steady { IsSteady D.Disk (parts_of store.old all.old notes.old) }
    requires clean { D.tells → AreClean (S.word gate.now.supply) (words_on (D.reading store.old.disk)) all.old }
    requires told { notes.old.entries ≡ B.kept ++ annals.old }
    ensures others { OthersStay (locus.old.number ∷ []) all.old all.new }
    ensures notes { NotesLook locus.old.number (locus.old.number ∷ []) notes.old.entries notes.new.entries }
    ensures numbers { locus.new.number ≡ locus.old.number }
    ensures unfit { (result ≡ None) ↔ (WantsOthers all.old locus.old.number [] ⊎ WantsStable all.old locus.old.number) }
    ensures undone { result ≡ None → (parts_of store.new all.new notes.new ≡ parts_of store.old all.old notes.old) × (annals.new ≡ annals.old) }
    ensures looks { IfSome result (LooksAsSerial D.Disk (S.word gate.now.supply) (P.wish gate.now.policy) locus.old.number (parts_of store.old all.old notes.old) (parts_of store.new all.new notes.new)) }
    ensures told { notes.new.entries ≡ B.kept ++ annals.new }
{
    let place = notes.entries().len();
    let came = look_one(all, locus, store, notes, blob, gate);
    tell_one(annals, notes, place, &mut locus.share);
    came
}

/// The same by two lent cells, of different entities.
pub(crate) fn told_two<D: Disk, B: Bond<Cell> + Run<Entry>, S: Supplier, P: Policy>(
    all: &mut Authority<Cell, B>,
    annals: &mut HistoryAuthority<Entry, B>,
    locus: &mut LockedCell<B>,
    other: &mut LockedCell<B>,
    store: &mut Store<D>,
    notes: &mut Notes,
    blob: &mut Blob,
    gate: &Gate<S, P>,
) -> Option<Result<Looked, Stopped>>
    requires keeps { S.keeps gate.now.supply }
    requires wishes { P.keeps gate.now.policy }
    requires steady { IsSteady D.Disk (parts_of store.old all.old notes.old) }
    requires clean { D.tells → AreClean (S.word gate.now.supply) (words_on (D.reading store.old.disk)) all.old }
    requires told { notes.old.entries ≡ B.kept ++ annals.old }
    requires apart { AllDiffer (locus.old.number ∷ other.old.number ∷ []) }
    ensures others { OthersStay (locus.old.number ∷ other.old.number ∷ []) all.old all.new }
    ensures notes { NotesLook locus.old.number (locus.old.number ∷ other.old.number ∷ []) notes.old.entries notes.new.entries }
    ensures numbers { (locus.new.number ≡ locus.old.number) × (other.new.number ≡ other.old.number) }
    ensures unfit { (result ≡ None) ↔ WantsOthers all.old locus.old.number (other.old.number ∷ []) }
    ensures undone { result ≡ None → (parts_of store.new all.new notes.new ≡ parts_of store.old all.old notes.old) × (annals.new ≡ annals.old) }
    ensures looks { IfSome result (LooksAsSerial D.Disk (S.word gate.now.supply) (P.wish gate.now.policy) locus.old.number (parts_of store.old all.old notes.old) (parts_of store.new all.new notes.new)) }
    ensures told { notes.new.entries ≡ B.kept ++ annals.new }
{
    let place = notes.entries().len();
    let came = look_two(all, locus, other, store, notes, blob, gate);
    tell_two(annals, notes, place, &mut locus.share, &mut other.share);
    came
}

/// The same by three.
pub(crate) fn told_three<D: Disk, B: Bond<Cell> + Run<Entry>, S: Supplier, P: Policy>(
    all: &mut Authority<Cell, B>,
    annals: &mut HistoryAuthority<Entry, B>,
    locus: &mut LockedCell<B>,
    atlas: &mut LockedCell<B>,
    other: &mut LockedCell<B>,
    store: &mut Store<D>,
    notes: &mut Notes,
    blob: &mut Blob,
    gate: &Gate<S, P>,
) -> Option<Result<Looked, Stopped>>
    requires keeps { S.keeps gate.now.supply }
    requires wishes { P.keeps gate.now.policy }
    requires steady { IsSteady D.Disk (parts_of store.old all.old notes.old) }
    requires clean { D.tells → AreClean (S.word gate.now.supply) (words_on (D.reading store.old.disk)) all.old }
    requires told { notes.old.entries ≡ B.kept ++ annals.old }
    requires apart { AllDiffer (locus.old.number ∷ atlas.old.number ∷ other.old.number ∷ []) }
    ensures others { OthersStay (locus.old.number ∷ atlas.old.number ∷ other.old.number ∷ []) all.old all.new }
    ensures notes { NotesLook locus.old.number (locus.old.number ∷ atlas.old.number ∷ other.old.number ∷ []) notes.old.entries notes.new.entries }
    ensures numbers { (locus.new.number ≡ locus.old.number) × (atlas.new.number ≡ atlas.old.number) × (other.new.number ≡ other.old.number) }
    ensures unfit { (result ≡ None) ↔ WantsOthers all.old locus.old.number (atlas.old.number ∷ other.old.number ∷ []) }
    ensures undone { result ≡ None → (parts_of store.new all.new notes.new ≡ parts_of store.old all.old notes.old) × (annals.new ≡ annals.old) }
    ensures looks { IfSome result (LooksAsSerial D.Disk (S.word gate.now.supply) (P.wish gate.now.policy) locus.old.number (parts_of store.old all.old notes.old) (parts_of store.new all.new notes.new)) }
    ensures told { notes.new.entries ≡ B.kept ++ annals.new }
{
    let place = notes.entries().len();
    let came = look_three(all, locus, atlas, other, store, notes, blob, gate);
    tell_three(
        annals,
        notes,
        place,
        &mut locus.share,
        &mut atlas.share,
        &mut other.share,
    );
    came
}
