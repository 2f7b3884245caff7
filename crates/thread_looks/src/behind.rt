// What comes behind a step that was made: the Snaps of the lent cells that it wrote.
ghost use Rattle.std.specs.Prelude.{◌≡◌, ◌∷◌, [], ℕ, false, IfOk, Ok, OnOk};
ghost use Rattle.kernel_core_facts.specs.table_births.model_kernel.State.{Supply};
ghost use Rattle.kernel_core_facts.specs.kernel_commit_facts.Parts.{parts_of, Parts};
ghost use Rattle.kernel_core_facts.specs.kernel_commit_facts.Steady.{IsSteady};
ghost use Rattle.kernel_core_facts.specs.Stepping.{is_owing};
ghost use Rattle.thread_commits.specs.Lent.{OthersStay};
ghost use Rattle.thread_commits.specs.Snapping.{WritesAmong};
ghost use Rattle.thread_looks.specs.Looking.{LooksAsSerial, NotesBehind};
ghost use Rattle.kernel_core_facts.specs.Looked.{IfMade, StepsOnce};
ghost use Rattle.kernel_core_facts.specs.declared.looked.Looked.TheVariants as ALooked;

use base_bytes::Blob;
use base_types::Entry;
use edge_disk::Disk;
use edge_managers::{Gate, Policy, Supplier};
use kernel_core_facts::{Cell, Looked, Notes, Stopped, Store};
use thread_cells::LockedCell;
use thread_commits::{snap_touched_one, snap_touched_three, snap_touched_two};
use thread_history::Run;
use thread_ties::{Authority, Bond};

/// Behind a step by one lent cell that owes no Stable: the Snaps of what it wrote whose wishes are open. Where no step was made, nothing is done.
pub(crate) fn snap_behind_one<D: Disk, B: Bond<Cell> + Run<Entry>, S: Supplier, P: Policy>(
    all: &mut Authority<Cell, B>,
    locus: &mut LockedCell<B>,
    store: &mut Store<D>,
    notes: &mut Notes,
    blob: &mut Blob,
    came: Result<Looked, Stopped>,
    gate: &Gate<S, P>,
) -> Result<Looked, Stopped>
    requires wishes { P.keeps gate.now.policy }
    requires steady { OnOk came (IsSteady D.Disk (parts_of store.old all.old notes.old)) }
    requires among { IfOk came (λ o. IfMade o (λ m. WritesAmong m.entry (locus.old.number ∷ []))) }
    ensures others { OthersStay (locus.old.number ∷ []) all.old all.new }
    ensures locus { (locus.new.number ≡ locus.old.number) × (locus.new.known ≡ locus.old.known) }
    ensures same { IfOk result (λ o. IfMade o (λ m. came ≡ Ok (ALooked.Made m))) }
    ensures adds { NotesBehind came notes.old.entries notes.new.entries }
    ensures looks { (supply : Supply) (me : ℕ) (old : Parts D) → IsSteady D.Disk old → StepsOnce D.Disk supply me old (parts_of store.old all.old notes.old) came
        → IfOk came (λ o. IfMade o (λ m. is_owing m.instr m.entry.answer ≡ false)) → LooksAsSerial D.Disk supply (P.wish gate.now.policy) me old (parts_of store.new all.new notes.new) result }
{
    match came {
        Err(why) => Err(why),
        Ok(looked) => match looked {
            Looked::Idle(why) => Ok(Looked::Idle(why)),
            Looked::Made(made) => match snap_touched_one(
                all,
                locus,
                store,
                notes,
                blob,
                &made.entry,
                gate,
            ) {
                Ok(()) => Ok(Looked::Made(made)),
                Err(why) => Err(why),
            },
        },
    }
}

/// Behind a step by two lent cells that owes no Stable: the Snaps of what it wrote whose wishes are open. Where no step was made, nothing is done.
pub(crate) fn snap_behind_two<D: Disk, B: Bond<Cell> + Run<Entry>, S: Supplier, P: Policy>(
    all: &mut Authority<Cell, B>,
    locus: &mut LockedCell<B>,
    other: &mut LockedCell<B>,
    store: &mut Store<D>,
    notes: &mut Notes,
    blob: &mut Blob,
    came: Result<Looked, Stopped>,
    gate: &Gate<S, P>,
) -> Result<Looked, Stopped>
    requires wishes { P.keeps gate.now.policy }
    requires steady { OnOk came (IsSteady D.Disk (parts_of store.old all.old notes.old)) }
    requires among { IfOk came (λ o. IfMade o (λ m. WritesAmong m.entry (locus.old.number ∷ other.old.number ∷ []))) }
    ensures others { OthersStay (locus.old.number ∷ other.old.number ∷ []) all.old all.new }
    ensures locus { (locus.new.number ≡ locus.old.number) × (locus.new.known ≡ locus.old.known) }
    ensures other { (other.new.number ≡ other.old.number) × (other.new.known ≡ other.old.known) }
    ensures same { IfOk result (λ o. IfMade o (λ m. came ≡ Ok (ALooked.Made m))) }
    ensures adds { NotesBehind came notes.old.entries notes.new.entries }
    ensures looks { (supply : Supply) (me : ℕ) (old : Parts D) → IsSteady D.Disk old → StepsOnce D.Disk supply me old (parts_of store.old all.old notes.old) came
        → IfOk came (λ o. IfMade o (λ m. is_owing m.instr m.entry.answer ≡ false)) → LooksAsSerial D.Disk supply (P.wish gate.now.policy) me old (parts_of store.new all.new notes.new) result }
{
    match came {
        Err(why) => Err(why),
        Ok(looked) => match looked {
            Looked::Idle(why) => Ok(Looked::Idle(why)),
            Looked::Made(made) => match snap_touched_two(
                all,
                locus,
                other,
                store,
                notes,
                blob,
                &made.entry,
                gate,
            ) {
                Ok(()) => Ok(Looked::Made(made)),
                Err(why) => Err(why),
            },
        },
    }
}

/// Behind a step by three lent cells that owes no Stable: the Snaps of what it wrote whose wishes are open. Where no step was made, nothing is done.
pub(crate) fn snap_behind_three<D: Disk, B: Bond<Cell> + Run<Entry>, S: Supplier, P: Policy>(
    all: &mut Authority<Cell, B>,
    locus: &mut LockedCell<B>,
    atlas: &mut LockedCell<B>,
    other: &mut LockedCell<B>,
    store: &mut Store<D>,
    notes: &mut Notes,
    blob: &mut Blob,
    came: Result<Looked, Stopped>,
    gate: &Gate<S, P>,
) -> Result<Looked, Stopped>
    requires wishes { P.keeps gate.now.policy }
    requires steady { OnOk came (IsSteady D.Disk (parts_of store.old all.old notes.old)) }
    requires among { IfOk came (λ o. IfMade o (λ m. WritesAmong m.entry (locus.old.number ∷ atlas.old.number ∷ other.old.number ∷ []))) }
    ensures others { OthersStay (locus.old.number ∷ atlas.old.number ∷ other.old.number ∷ []) all.old all.new }
    ensures locus { (locus.new.number ≡ locus.old.number) × (locus.new.known ≡ locus.old.known) }
    ensures atlas { (atlas.new.number ≡ atlas.old.number) × (atlas.new.known ≡ atlas.old.known) }
    ensures other { (other.new.number ≡ other.old.number) × (other.new.known ≡ other.old.known) }
    ensures same { IfOk result (λ o. IfMade o (λ m. came ≡ Ok (ALooked.Made m))) }
    ensures adds { NotesBehind came notes.old.entries notes.new.entries }
    ensures looks { (supply : Supply) (me : ℕ) (old : Parts D) → IsSteady D.Disk old → StepsOnce D.Disk supply me old (parts_of store.old all.old notes.old) came
        → IfOk came (λ o. IfMade o (λ m. is_owing m.instr m.entry.answer ≡ false)) → LooksAsSerial D.Disk supply (P.wish gate.now.policy) me old (parts_of store.new all.new notes.new) result }
{
    match came {
        Err(why) => Err(why),
        Ok(looked) => match looked {
            Looked::Idle(why) => Ok(Looked::Idle(why)),
            Looked::Made(made) => match snap_touched_three(
                all,
                locus,
                atlas,
                other,
                store,
                notes,
                blob,
                &made.entry,
                gate,
            ) {
                Ok(()) => Ok(Looked::Made(made)),
                Err(why) => Err(why),
            },
        },
    }
}
