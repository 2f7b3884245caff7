// A copy over the cells that it touches.
ghost use Rattle.std.specs.Prelude.{◌≡◌, ◌⊎◌, ◌<◌, ◌≤◌, ℕ, List, false, Some, length, OnOk, IsErrOf};
ghost use Rattle.edge_disk.specs.Counts.{Rose};
ghost use Rattle.edge_disk.specs.Moments.{LeavesOnly};
ghost use Rattle.cell_copies.specs.model_copies.model_kernel.Scripts.{container_named};
ghost use Rattle.cell_copies.specs.model_copies.model_kernel.State.{KernelState, Supply, Text};
ghost use Rattle.cell_copies.specs.model_copies.model_kernel.Steps.{atlas_in};
ghost use Rattle.copy_commits.specs.Putting.{LeavesCopyOf, MeansBeforeOr};
ghost use Rattle.copy_commits.specs.kernel_records.store_books.Books.{AreTrue, free_in};
ghost use Rattle.copy_commits.specs.store_facts.State.{books};
ghost use Rattle.data_atlas.specs.data_atlas_facts.Directory.{Directory};
ghost use Rattle.open_image.specs.open_facts.Images.{IsOpenedTable};
ghost use Rattle.container_copy.specs.Copying.{MayCopyAt, StandsTable};
ghost use Rattle.container_copy.specs.Facing.{FacesCopy, StandsBefore};
ghost use Rattle.container_copy.specs.Needs.{CellsNeed, IsShort, TableNeeds};

use crate::needs::need_of;
use base_bytes::Blob;
use cell_copies::copy_cells;
use copy_commits::put_copy;
use edge_disk::{Disk, NoBlocks};
use kernel_record_facts::Cell;
use kernel_records::table_of;
use store_snapshots::{Store, StoreFault};

/// Makes the newborn a copy of the container under this new name, and commits both.
///
/// `NoBlocks` comes exactly where fewer blocks are free than are needed, with both numbers, and then nothing was written. `ReadFault` and
/// `WriteFault` come only where the disk's count of faults rose; nothing else goes wrong.
pub(crate) fn copy_over<D: Disk>(
    atlas: &mut Cell,
    source: &Cell,
    newborn: &mut Cell,
    fresh: &str,
    store: &mut Store<D>,
    blob: &mut Blob,
) -> Result<(), StoreFault>
    requires faces { FacesCopy (books store.old) fresh.now atlas.old source.now newborn.old }
    requires working { (books store.old).shut ≡ false }
    requires true_books { D.tells → AreTrue D.Disk (books store.old) store.old.disk }
    ensures any_moment { D.tells → (s : Supply) → (name : Text) → (v : KernelState) → (tables : ℕ → List ℕ) → container_named (atlas_in (v 0).cell) name ≡ Some source.now.clock.entity
        → StandsBefore s v (D.reading store.old.disk) (books store.old) tables atlas.old source.now newborn.old
        → LeavesOnly D.Disk store.old.disk store.new.disk (MeansBeforeOr s name fresh.now v) }
    ensures done { D.tells → OnOk result ((s : Supply) → (name : Text) → (v : KernelState) → (tables : ℕ → List ℕ) → container_named (atlas_in (v 0).cell) name ≡ Some source.now.clock.entity
        → StandsBefore s v (D.reading store.old.disk) (books store.old) tables atlas.old source.now newborn.old
        → LeavesCopyOf D.Disk s name fresh.now v store.new.disk) }
    ensures no_blocks { (m : NoBlocks) → IsErrOf result (StoreFault.NoBlocks m)
        → (store.new ≡ store.old) × IsShort (books store.old) m × CellsNeed fresh.now atlas.old source.now newborn.old m.need }
    ensures room { OnOk result ((need : ℕ) × (need ≤ free_in (books store.old)) × CellsNeed fresh.now atlas.old source.now newborn.old need) }
    ensures no_shut { IsErrOf result StoreFault.Shut → ⊥ }
    ensures failed { (e : StoreFault) → IsErrOf result e → (e ≡ StoreFault.ReadFault) ⊎ (e ≡ StoreFault.WriteFault) → Rose (D.faults store.old.disk) (D.faults store.new.disk) }
    ensures later { D.faults store.old.disk ≤ D.faults store.new.disk }
{
    copy_cells(atlas, source, newborn, fresh);
    let from = table_of(&source.part);
    let need = need_of(&from, atlas, newborn, blob);
    let free = store.free();
    if free < need {
        return Err(StoreFault::NoBlocks(NoBlocks { need, free }));
    }
    put_copy(atlas, newborn, &from, store, blob)
}

/// Copies the container with this number under this new name and this number, which is the lowest free one, over the cells of a table that was opened.
///
/// Faults are those of `copy_over`.
pub(crate) fn copy_at<D: Disk>(
    cells: &mut [Cell],
    source: usize,
    newborn: usize,
    fresh: &str,
    store: &mut Store<D>,
    blob: &mut Blob,
) -> Result<(), StoreFault>
    requires table { IsOpenedTable 1 1 store.old cells.old }
    requires order { (0 < source) × (source < newborn) × (newborn < length cells.old) }
    requires places { (d : Directory) × (name : Text) × MayCopyAt cells.old d name fresh.now source newborn }
    requires true_books { D.tells → AreTrue D.Disk (books store.old) store.old.disk }
    ensures any_moment { D.tells → (s : Supply) → (name : Text) → (v : KernelState) → StandsTable s v (D.reading store.old.disk) (books store.old) cells.old
        → container_named (atlas_in (v 0).cell) name ≡ Some source → LeavesOnly D.Disk store.old.disk store.new.disk (MeansBeforeOr s name fresh.now v) }
    ensures done { D.tells → OnOk result ((s : Supply) → (name : Text) → (v : KernelState) → StandsTable s v (D.reading store.old.disk) (books store.old) cells.old
        → container_named (atlas_in (v 0).cell) name ≡ Some source → LeavesCopyOf D.Disk s name fresh.now v store.new.disk) }
    ensures no_blocks { (m : NoBlocks) → IsErrOf result (StoreFault.NoBlocks m)
        → (store.new ≡ store.old) × IsShort (books store.old) m × ((d : Directory) → (name : Text) → MayCopyAt cells.old d name fresh.now source newborn → TableNeeds cells.old name fresh.now m.need) }
    ensures room { OnOk result ((need : ℕ) × (need ≤ free_in (books store.old)) × ((d : Directory) → (name : Text) → MayCopyAt cells.old d name fresh.now source newborn → TableNeeds cells.old name fresh.now need)) }
    ensures no_shut { IsErrOf result StoreFault.Shut → ⊥ }
    ensures failed { (e : StoreFault) → IsErrOf result e → (e ≡ StoreFault.ReadFault) ⊎ (e ≡ StoreFault.WriteFault) → Rose (D.faults store.old.disk) (D.faults store.new.disk) }
    ensures later { D.faults store.old.disk ≤ D.faults store.new.disk }
{
    let (front, back) = cells.split_at_mut(newborn);
    let (first, rest) = front.split_at_mut(source);
    copy_over(&mut first[0], &rest[0], &mut back[0], fresh, store, blob)
}
