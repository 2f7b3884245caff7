// One record of a cell of the kernel.
ghost use Rattle.std.specs.Prelude.{◌≡◌, ◌↔◌, ◌<◌, false, Some, IsErrOf, OnErr, OnOk, length, slice_get};
ghost use Rattle.kernel_commit_facts.specs.kernel_book_laws.Matching.{version_of};
ghost use Rattle.base_types.specs.declared.histories.Event.TheVariants as AnEvent;
ghost use Rattle.kernel_commit_facts.specs.model_kernel.Histories.{mark};
ghost use Rattle.kernel_commit_facts.specs.cell_blobs.Blobs.{is_recorded};
ghost use Rattle.kernel_commit_facts.specs.cell_states.declared.cells.Cell.{Cell as ACell};
ghost use Rattle.kernel_commit_facts.specs.Lacking.{LacksBlocks};
ghost use Rattle.kernel_commit_facts.specs.Recording.{CanRecord, HasMade, HasNotMade, HasRecorded, IsShort, MayRecord, with_fault};
ghost use Rattle.kernel_commits.specs.Recording.{Fails, GoesOnBy, IsOfCommit, why_of};
ghost use Rattle.kernel_commit_facts.specs.kernel_invariant.Beginnings.{Beginning, run_of};
ghost use Rattle.kernel_commit_facts.specs.kernel_records.Committing.{CellFaults, CommitCounts};

use crate::cores::Core;
use crate::notes::Notes;
use base_bytes::Blob;
use base_types::{Entity, Event};
use edge_disk::{Disk, NoBlocks};
use kernel_commit_facts::{Cell, Store, StoreFault, commit_cell, mark_entry};
use kernel_invariant::Stopped;

/// Commits a record of one of the cells, which has changed since its newest one.
fn commit_among<D: Disk>(
    cells: &mut [Cell],
    store: &mut Store<D>,
    blob: &mut Blob,
    entity: Entity,
) -> Result<bool, StoreFault>
    requires can { CanRecord D.Disk entity cells.old store.old }
    ensures made { OnOk result (HasMade D.Disk entity cells.old cells.new store.old store.new) }
    ensures unmade { OnErr result (HasNotMade D.Disk entity cells.old cells.new store.old store.new) }
    ensures faults { (c d : ACell) → slice_get cells.old entity ≡ Some c → slice_get cells.new entity ≡ Some d
        → CellFaults D.faults (is_recorded c ≡ false) result c d store.old store.new }
    ensures counts { CommitCounts D.Disk store.old store.new }
{
    commit_cell(&mut cells[entity.number() as usize], store, blob)
}

/// The version of one of the cells.
fn version_among(cells: &[Cell], entity: Entity) -> u64
    requires { length cells.now ≡ 64 }
    ensures { result ≡ version_of cells.now entity }
{
    cells[entity.number() as usize].clock.version
}

/// Why a fault of a commit stops the kernel. Where a write failed, its Tried is noted.
pub fn note_fault(notes: &mut Notes, entity: Entity, version: u64, fault: StoreFault) -> Stopped
    requires room { length notes.old.entries < notes.old.room }
    requires kind { IsOfCommit fault }
    ensures why { result ≡ why_of fault }
    ensures noted { notes.new ≡ with_fault fault (mark AnEvent.Tried entity version) notes.old }
{
    match fault {
        StoreFault::NoBlocks(blocks) => Stopped::NoBlocks(blocks),
        StoreFault::WriteFault => {
            notes.push_entry(&mark_entry(Event::Tried, entity, version));
            Stopped::WriteFault
        }
        StoreFault::ReadFault | StoreFault::Shut => unreachable!(),
    }
}

/// Makes a record of an entity that has changed since its newest one, with its Snap and its mark. Where it fails the kernel is to stop.
pub(crate) fn record_one<D: Disk>(core: &mut Core<D>, entity: Entity) -> Result<(), Stopped>
    requires can { CanRecord D.Disk entity core.old.cells core.old.store }
    requires entry_room { length core.old.noted.entries < core.old.noted.room }
    requires mark_room { length core.old.noted.marks < core.old.noted.room }
    ensures recorded { OnOk result (HasRecorded D.Disk entity core.old core.new) }
    ensures no_blocks { (n : NoBlocks) → IsErrOf result (Stopped.NoBlocks n) ↔ IsShort D.Disk entity core.old n }
    ensures fails { Fails D.Disk entity result core.old core.new }
    ensures run { D.tells → (b : Beginning) → MayRecord D.Disk b entity core.old
        → GoesOnBy D.Disk b result core.new }
    ensures enough { D.tells → (b : Beginning) → MayRecord D.Disk b entity core.old
        → (run_of b core.old.noted.entries).short ≡ false → (n : NoBlocks) → IsErrOf result (Stopped.NoBlocks n) → LacksBlocks b core.old }
    ensures counts { CommitCounts D.Disk core.old.store core.new.store }
{
    let version = version_among(&core.cells, entity);
    match commit_among(&mut core.cells, &mut core.store, &mut core.blob, entity) {
        Ok(_) => {
            core.notes
                .push_entry(&mark_entry(Event::Snap, entity, version));
            core.notes.push_mark(core.store.begun());
            Ok(())
        }
        Err(fault) => Err(note_fault(&mut core.notes, entity, version, fault)),
    }
}
