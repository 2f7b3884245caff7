// The Snaps behind a step, of the lent cells that it wrote.
ghost use Rattle.std.specs.Prelude.{◌≡◌, ◌==◌, ◌∷◌, [], true};
ghost use Rattle.thread_history.specs.Rules.{is_among};
ghost use Rattle.kernel_commit_facts.specs.model_serial.Serial.{written_in};
ghost use Rattle.kernel_commit_facts.specs.Parts.{parts_of};
ghost use Rattle.kernel_commit_facts.specs.Steady.{IsSteady};
ghost use Rattle.thread_commits.specs.Lent.{OthersStay};
ghost use Rattle.thread_commits.specs.Snapping.{SnapsWished, SnapsWritten, WritesAmong};

use crate::snapping::snap_lent;
use base_bytes::Blob;
use base_types::{Entity, Entry};
use edge_disk::Disk;
use edge_managers::{Gate, Policy, Supplier};
use kernel_commit_facts::{Cell, Store};
use kernel_commits::{Notes, Stopped};
use thread_cells::LockedCell;
use thread_history::Run;
use thread_ties::{Authority, Bond};

/// Whether the lent cell is the entity's.
fn is_of<B: Bond<Cell> + Run<Entry>>(cell: &LockedCell<B>, entity: Entity) -> bool
    ensures { result ≡ (cell.now.number == entity) }
{
    cell.cell.clock.entity.number() == entity.number()
}

/// The Snap of that one of two lent cells which is the entity's.
fn snap_of_two<D: Disk, B: Bond<Cell> + Run<Entry>, S: Supplier, P: Policy>(
    all: &mut Authority<Cell, B>,
    one: &mut LockedCell<B>,
    two: &mut LockedCell<B>,
    store: &mut Store<D>,
    notes: &mut Notes,
    blob: &mut Blob,
    entity: Entity,
    gate: &Gate<S, P>,
) -> Result<bool, Stopped>
    requires keeps { P.keeps gate.now.policy }
    requires steady { IsSteady D.Disk (parts_of store.old all.old notes.old) }
    requires among { is_among entity (one.old.number ∷ two.old.number ∷ []) ≡ true }
    ensures others { OthersStay (one.old.number ∷ two.old.number ∷ []) all.old all.new }
    ensures one { (one.new.number ≡ one.old.number) × (one.new.known ≡ one.old.known) }
    ensures two { (two.new.number ≡ two.old.number) × (two.new.known ≡ two.old.known) }
    ensures snaps { SnapsWished D.Disk (P.wish gate.now.policy) entity result (parts_of store.old all.old notes.old) (parts_of store.new all.new notes.new) }
{
    if is_of(one, entity) {
        return snap_lent(all, one, store, notes, blob, gate);
    }
    snap_lent(all, two, store, notes, blob, gate)
}

/// The Snap of that one of three lent cells which is the entity's.
fn snap_of_three<D: Disk, B: Bond<Cell> + Run<Entry>, S: Supplier, P: Policy>(
    all: &mut Authority<Cell, B>,
    one: &mut LockedCell<B>,
    two: &mut LockedCell<B>,
    three: &mut LockedCell<B>,
    store: &mut Store<D>,
    notes: &mut Notes,
    blob: &mut Blob,
    entity: Entity,
    gate: &Gate<S, P>,
) -> Result<bool, Stopped>
    requires keeps { P.keeps gate.now.policy }
    requires steady { IsSteady D.Disk (parts_of store.old all.old notes.old) }
    requires among { is_among entity (one.old.number ∷ two.old.number ∷ three.old.number ∷ []) ≡ true }
    ensures others { OthersStay (one.old.number ∷ two.old.number ∷ three.old.number ∷ []) all.old all.new }
    ensures one { (one.new.number ≡ one.old.number) × (one.new.known ≡ one.old.known) }
    ensures two { (two.new.number ≡ two.old.number) × (two.new.known ≡ two.old.known) }
    ensures three { (three.new.number ≡ three.old.number) × (three.new.known ≡ three.old.known) }
    ensures snaps { SnapsWished D.Disk (P.wish gate.now.policy) entity result (parts_of store.old all.old notes.old) (parts_of store.new all.new notes.new) }
{
    if is_of(one, entity) {
        return snap_lent(all, one, store, notes, blob, gate);
    }
    snap_of_two(all, two, three, store, notes, blob, entity, gate)
}

/// Behind a step that wrote at most one entity, whose cell is lent: its Snap, where its wish is open (`SnapsWritten`). Both sides of the tie
/// know the cell as it is left.
///
/// `NoBlocks` comes only where fewer blocks are free than the record needs, with both numbers, before its first write; `WriteFault` leaves
/// a Tried. Nothing is read, and no memory is taken. What was in `blob` is lost.
pub fn snap_touched_one<D: Disk, B: Bond<Cell> + Run<Entry>, S: Supplier, P: Policy>(
    all: &mut Authority<Cell, B>,
    one: &mut LockedCell<B>,
    store: &mut Store<D>,
    notes: &mut Notes,
    blob: &mut Blob,
    entry: &Entry,
    gate: &Gate<S, P>,
) -> Result<(), Stopped>
    requires keeps { P.keeps gate.now.policy }
    requires steady { IsSteady D.Disk (parts_of store.old all.old notes.old) }
    requires among { WritesAmong entry.now (one.old.number ∷ []) }
    ensures others { OthersStay (one.old.number ∷ []) all.old all.new }
    ensures one { (one.new.number ≡ one.old.number) × (one.new.known ≡ one.old.known) }
    ensures snaps { SnapsWritten D.Disk (P.wish gate.now.policy) (written_in entry.now.touched) result (parts_of store.old all.old notes.old) (parts_of store.new all.new notes.new) }
{
    let touches = entry.touched.as_slice();
    for i in 0..touches.len() {
        let touch = touches[i];
        if touch.wrote {
            if let Err(why) = snap_lent(all, one, store, notes, blob, gate) {
                return Err(why);
            }
        }
    }
    Ok(())
}

/// Behind a step that wrote at most two entities, whose cells are lent in any order: the Snaps of those whose wishes are open, in ascending
/// number (`SnapsWritten`). Both sides of the tie know the cells as they are left.
///
/// `NoBlocks` comes only where fewer blocks are free than the record of one of them needs, with both numbers, before its first write;
/// `WriteFault` leaves a Tried. Nothing is read, and no memory is taken. What was in `blob` is lost.
pub fn snap_touched_two<D: Disk, B: Bond<Cell> + Run<Entry>, S: Supplier, P: Policy>(
    all: &mut Authority<Cell, B>,
    one: &mut LockedCell<B>,
    two: &mut LockedCell<B>,
    store: &mut Store<D>,
    notes: &mut Notes,
    blob: &mut Blob,
    entry: &Entry,
    gate: &Gate<S, P>,
) -> Result<(), Stopped>
    requires keeps { P.keeps gate.now.policy }
    requires steady { IsSteady D.Disk (parts_of store.old all.old notes.old) }
    requires among { WritesAmong entry.now (one.old.number ∷ two.old.number ∷ []) }
    ensures others { OthersStay (one.old.number ∷ two.old.number ∷ []) all.old all.new }
    ensures one { (one.new.number ≡ one.old.number) × (one.new.known ≡ one.old.known) }
    ensures two { (two.new.number ≡ two.old.number) × (two.new.known ≡ two.old.known) }
    ensures snaps { SnapsWritten D.Disk (P.wish gate.now.policy) (written_in entry.now.touched) result (parts_of store.old all.old notes.old) (parts_of store.new all.new notes.new) }
{
    let touches = entry.touched.as_slice();
    for i in 0..touches.len() {
        let touch = touches[i];
        if touch.wrote {
            if let Err(why) = snap_of_two(all, one, two, store, notes, blob, touch.entity, gate) {
                return Err(why);
            }
        }
    }
    Ok(())
}

/// The same where three are lent.
pub fn snap_touched_three<D: Disk, B: Bond<Cell> + Run<Entry>, S: Supplier, P: Policy>(
    all: &mut Authority<Cell, B>,
    one: &mut LockedCell<B>,
    two: &mut LockedCell<B>,
    three: &mut LockedCell<B>,
    store: &mut Store<D>,
    notes: &mut Notes,
    blob: &mut Blob,
    entry: &Entry,
    gate: &Gate<S, P>,
) -> Result<(), Stopped>
    requires keeps { P.keeps gate.now.policy }
    requires steady { IsSteady D.Disk (parts_of store.old all.old notes.old) }
    requires among { WritesAmong entry.now (one.old.number ∷ two.old.number ∷ three.old.number ∷ []) }
    ensures others { OthersStay (one.old.number ∷ two.old.number ∷ three.old.number ∷ []) all.old all.new }
    ensures one { (one.new.number ≡ one.old.number) × (one.new.known ≡ one.old.known) }
    ensures two { (two.new.number ≡ two.old.number) × (two.new.known ≡ two.old.known) }
    ensures three { (three.new.number ≡ three.old.number) × (three.new.known ≡ three.old.known) }
    ensures snaps { SnapsWritten D.Disk (P.wish gate.now.policy) (written_in entry.now.touched) result (parts_of store.old all.old notes.old) (parts_of store.new all.new notes.new) }
{
    let touches = entry.touched.as_slice();
    for i in 0..touches.len() {
        let touch = touches[i];
        if touch.wrote {
            if let Err(why) = snap_of_three(
                all,
                one,
                two,
                three,
                store,
                notes,
                blob,
                touch.entity,
                gate,
            ) {
                return Err(why);
            }
        }
    }
    Ok(())
}
