// A look in the desk for which all cells are lent.
ghost use Rattle.std.specs.Prelude.{◌≡◌, ◌↔◌, ◌∷◌, [], None, Some, Err, IfSome, length, map};
ghost use Rattle.std.specs.Sync.Mutex.{mutex_guard_value};
ghost use Rattle.thread_stables.specs.kernel_core_facts.kernel_commit_facts.Parts.{parts_of};
ghost use Rattle.thread_stables.specs.thread_cell_steps.Advancing.{WantsOthers};
ghost use Rattle.thread_desk_looks.specs.Items.{IsTrueOf};
ghost use Rattle.thread_desk_stables.specs.Rows.{AllHeard, keeping_of};
ghost use Rattle.thread_stables.specs.thread_looks.Looking.{LooksAsSerial, NotesLook, stop_in};
ghost use Rattle.thread_stables.specs.thread_settling.Rows.{IsRow};

use crate::hearing::hear_all;
use crate::stabling::told_all;
use base_types::Entity;
use edge_disk::Disk;
use edge_managers::{Gate, Policy, Supplier};
use std::sync::MutexGuard;
use thread_desk_looks::{Board, Desk, SightedCell, Till, tell_store};
use thread_stables::{Looked, Stopped, stop_of};

/// One look at a locus whose step touches it alone, with the store's lock and the history's in hand, where all 64 cells are lent, each at the place
/// of its number: its step, and behind it the Stable that it owes, or its Snap where one is wished. `None`, and nothing done, exactly where its
/// act touches another entity. A kernel that has stopped does nothing, and tells why.
///
/// It is the look of the serial kernel, with its stops, over what the desk knows (`LooksAsSerial`); and what it tells is true of the desk's
/// history, after as many entries as that had (`IsTrueOf`). All that it notes is told: the step by the locus's share, and what comes behind it,
/// which writes no entity, by none. Behind the look each cell has heard the whole history, and may be let go. It takes no memory.
pub fn look_all<D: Disk, B: Board<D>, S: Supplier, P: Policy>(
    desk: &mut Desk<D, B>,
    till: &mut Till<D, B>,
    cells: &mut [MutexGuard<'_, SightedCell<D, B>>],
    me: Entity,
    gate: &Gate<S, P>,
) -> Option<Result<Looked, Stopped>>
    requires keeps { S.keeps gate.now.supply }
    requires wishes { P.keeps gate.now.policy }
    requires managers { (B.begin.supply ≡ S.word gate.now.supply) × (B.begin.policy ≡ P.wish gate.now.policy) }
    requires row { IsRow (map (λ g. keeping_of (mutex_guard_value g)) cells.old) }
    ensures was_stopped { IfSome desk.old.stop (λ why. (result ≡ Some (Err why)) × (desk.new ≡ desk.old) × (till.new ≡ till.old) × (cells.new ≡ cells.old)) }
    ensures unfit { desk.old.stop ≡ None → (result ≡ None) ↔ WantsOthers desk.old.cells me [] }
    ensures undone { result ≡ None → (desk.new ≡ desk.old) × (till.new ≡ till.old) }
    ensures looks { desk.old.stop ≡ None → IfSome result (LooksAsSerial D.Disk (S.word gate.now.supply) (P.wish gate.now.policy) me (parts_of till.old desk.old.cells desk.old.noted) (parts_of till.new desk.new.cells desk.new.noted)) }
    ensures stop { desk.old.stop ≡ None → desk.new.stop ≡ stop_in result }
    ensures item { IfSome result (IsTrueOf B.terms.told B.begin me (length desk.old.noted.entries) desk.new.noted.entries) }
    ensures notes { NotesLook me (me ∷ []) desk.old.noted.entries desk.new.noted.entries }
    ensures row { IsRow (map (λ g. keeping_of (mutex_guard_value g)) cells.new) }
    ensures heard { desk.old.stop ≡ None → AllHeard desk.new.told (map (λ g. keeping_of (mutex_guard_value g)) cells.new) }
{
    if let Some(why) = desk.stopped {
        return Some(Err(why));
    }
    desk.stores.agree(&mut till.fragment);
    let came = told_all(
        &mut desk.cells,
        &mut desk.annals,
        cells,
        me,
        &mut till.store,
        &mut desk.notes,
        &mut desk.blob,
        gate,
    );
    tell_store(&mut desk.stores, &mut till.fragment, &till.store);
    hear_all(&mut desk.cells, &mut desk.annals, &till.store, cells);
    desk.stopped = stop_of(&came);
    came
}
