// Looks in the desk whose items are noted.
ghost use Rattle.std.specs.Prelude.{◌≡◌, ◌↔◌, ◌⊎◌, ◌+◌, ◌<◌, ◌≤◌, ◌^◌, ◌++◌, ◌∷◌, [], None, Err, IfSome, length, map};
ghost use Rattle.std.specs.Sync.Mutex.{mutex_guard_value};
ghost use Rattle.std.specs.Result.{result_err};
ghost use Rattle.thread_desk_stables.specs.kernel_core_facts.kernel_commit_facts.Parts.{parts_of};
ghost use Rattle.thread_board.specs.Items.{Each};
ghost use Rattle.thread_desk_stables.specs.thread_cell_steps.Advancing.{WantsOthers};
ghost use Rattle.thread_desk_stables.specs.thread_commits.Lent.{OthersStay};
ghost use Rattle.thread_history.specs.Rules.{AllDiffer};
ghost use Rattle.thread_desk_stables.specs.thread_looks.Looking.{LooksAsSerial, WantsStable};
ghost use Rattle.thread_desk_stables.specs.thread_settling.Rows.{IsRow};
ghost use Rattle.thread_desk_stables.specs.Rows.{keeping_of};
ghost use Rattle.thread_items.specs.declared.answers.Answer.TheVariants as AnAnswer;
ghost use Rattle.thread_items.specs.Answers.{IfCame};
ghost use Rattle.thread_items.specs.Items.{item_of};
ghost use Rattle.thread_items.specs.Places.{steps_in};

use crate::answers::Answer;
use crate::desks::ItemDesk;
use crate::items::{LookItem, came_of};
use base_types::Entity;
use edge_disk::Disk;
use edge_managers::{Gate, Policy, Supplier};
use std::sync::MutexGuard;
use thread_board::{Bench, Line, Pass, Slate, Slip};
use thread_desk_stables::{Board, Desk, Looked, SightedCell, Stopped, Till};

/// The entity of a cell.
fn entity_of<D: Disk, B: Board<D>>(cell: &SightedCell<D, B>) -> Entity
    ensures { result ≡ cell.now.number }
{
    cell.locked.cell.clock.entity
}

/// The item of a look at the locus that answered this after so many entries.
fn item_at<D: Disk, B: Board<D>>(
    desk: &Desk<D, B>,
    locus: Entity,
    place: u64,
    came: &Result<Looked, Stopped>,
) -> LookItem
    ensures { result ≡ item_of locus place came.now desk.now.noted.entries }
{
    LookItem {
        locus,
        place,
        came: came_of(came, desk.notes.entries(), place as usize),
    }
}

/// Notes the item as the last of all and of the pass, where fewer than 2^62 are noted.
fn note_item<C: Line, B: Bench>(
    slip: &mut Slip<C, LookItem, B>,
    slate: &Slate<C, LookItem, B>,
    pass: &mut Pass<C, LookItem, B>,
    item: LookItem,
)
    requires few { length slip.old.items < 2 ^ 62 }
    requires room { 0 < pass.old.room }
    requires later { Each (λ x. x.item.place + steps_in x.item.came ≤ item.place) slip.old.items }
    ensures items { slip.new.items ≡ slip.old.items ++ record { pass = pass.old.number; item = item } ∷ [] }
    ensures pass { pass.new.items ≡ pass.old.items ++ record { pass = pass.old.number; item = item } ∷ [] }
    ensures number { pass.new.number ≡ pass.old.number }
    ensures others { (slip.new.commits ≡ slip.old.commits) × (slip.new.back ≡ slip.old.back) }
{
    if !slip.put(slate, pass, item) {
        unreachable!();
    }
}

/// One look at a locus whose step touches it alone and owes no Stable, as `thread_desk_stables::look_one`, with its item noted as the last of the
/// pass: the step that was made, with its entry, or why none was, or why the kernel has stopped, and after how many entries.
///
/// Where other cells are wanted, or 2^62 items are noted, nothing is done and no item noted. It takes no memory: the pass has room.
pub fn look_one<D: Disk, C: Line, B: Board<D> + Bench, S: Supplier, P: Policy>(
    desk: &mut ItemDesk<D, C, B>,
    till: &mut Till<D, B>,
    locus: &mut SightedCell<D, B>,
    gate: &Gate<S, P>,
    slate: &Slate<C, LookItem, B>,
    pass: &mut Pass<C, LookItem, B>,
) -> Answer
    requires keeps { S.keeps gate.now.supply }
    requires wishes { P.keeps gate.now.policy }
    requires managers { (B.begin.supply ≡ S.word gate.now.supply) × (B.begin.policy ≡ P.wish gate.now.policy) }
    requires room { 0 < pass.old.room }
    ensures full { (result ≡ AnAnswer.Full) ↔ (2 ^ 62 ≤ length desk.old.noting.items) }
    ensures unfit { length desk.old.noting.items < 2 ^ 62 → desk.old.desk.stop ≡ None → (result ≡ AnAnswer.Unfit) ↔ (WantsOthers desk.old.desk.cells locus.old.number [] ⊎ WantsStable desk.old.desk.cells locus.old.number) }
    ensures was_stopped { length desk.old.noting.items < 2 ^ 62 → IfSome desk.old.desk.stop (λ why. (result ≡ AnAnswer.Came (Err why)) × (desk.new.desk ≡ desk.old.desk) × (till.new ≡ till.old) × (locus.new ≡ locus.old)) }
    ensures undone { (result ≡ AnAnswer.Unfit) ⊎ (result ≡ AnAnswer.Full) → (desk.new ≡ desk.old) × (till.new ≡ till.old) × (pass.new ≡ pass.old) }
    ensures looks { desk.old.desk.stop ≡ None → IfCame result (LooksAsSerial D.Disk (S.word gate.now.supply) (P.wish gate.now.policy) locus.old.number (parts_of till.old desk.old.desk.cells desk.old.desk.noted) (parts_of till.new desk.new.desk.cells desk.new.desk.noted)) }
    ensures stop { desk.old.desk.stop ≡ None → IfCame result (λ r. desk.new.desk.stop ≡ result_err r) }
    ensures item { IfCame result (λ r. pass.new.items ≡ pass.old.items ++ record { pass = pass.old.number; item = item_of locus.old.number (length desk.old.desk.noted.entries) r desk.new.desk.noted.entries } ∷ []) }
    ensures items { IfCame result (λ r. desk.new.noting.items ≡ desk.old.noting.items ++ record { pass = pass.old.number; item = item_of locus.old.number (length desk.old.desk.noted.entries) r desk.new.desk.noted.entries } ∷ []) }
    ensures numbers { (pass.new.number ≡ pass.old.number) × (locus.new.number ≡ locus.old.number) }
    ensures others { OthersStay (locus.old.number ∷ []) desk.old.desk.cells desk.new.desk.cells }
{
    if desk.slip.is_full(slate) {
        return Answer::Full;
    }
    let place = desk.desk.place();
    match thread_desk_stables::look_one(&mut desk.desk, till, locus, gate) {
        None => Answer::Unfit,
        Some(came) => {
            let item = item_at(&desk.desk, entity_of(locus), place, &came);
            note_item(&mut desk.slip, slate, pass, item);
            Answer::Came(came)
        }
    }
}

/// The same where the step touches one entity beside the locus. The two cells are of different entities.
pub fn look_two<D: Disk, C: Line, B: Board<D> + Bench, S: Supplier, P: Policy>(
    desk: &mut ItemDesk<D, C, B>,
    till: &mut Till<D, B>,
    locus: &mut SightedCell<D, B>,
    other: &mut SightedCell<D, B>,
    gate: &Gate<S, P>,
    slate: &Slate<C, LookItem, B>,
    pass: &mut Pass<C, LookItem, B>,
) -> Answer
    requires keeps { S.keeps gate.now.supply }
    requires wishes { P.keeps gate.now.policy }
    requires managers { (B.begin.supply ≡ S.word gate.now.supply) × (B.begin.policy ≡ P.wish gate.now.policy) }
    requires apart { AllDiffer (locus.old.number ∷ other.old.number ∷ []) }
    requires room { 0 < pass.old.room }
    ensures full { (result ≡ AnAnswer.Full) ↔ (2 ^ 62 ≤ length desk.old.noting.items) }
    ensures unfit { length desk.old.noting.items < 2 ^ 62 → desk.old.desk.stop ≡ None → (result ≡ AnAnswer.Unfit) ↔ WantsOthers desk.old.desk.cells locus.old.number (other.old.number ∷ []) }
    ensures was_stopped { length desk.old.noting.items < 2 ^ 62 → IfSome desk.old.desk.stop (λ why. (result ≡ AnAnswer.Came (Err why)) × (desk.new.desk ≡ desk.old.desk) × (till.new ≡ till.old) × (locus.new ≡ locus.old) × (other.new ≡ other.old)) }
    ensures undone { (result ≡ AnAnswer.Unfit) ⊎ (result ≡ AnAnswer.Full) → (desk.new ≡ desk.old) × (till.new ≡ till.old) × (pass.new ≡ pass.old) }
    ensures looks { desk.old.desk.stop ≡ None → IfCame result (LooksAsSerial D.Disk (S.word gate.now.supply) (P.wish gate.now.policy) locus.old.number (parts_of till.old desk.old.desk.cells desk.old.desk.noted) (parts_of till.new desk.new.desk.cells desk.new.desk.noted)) }
    ensures stop { desk.old.desk.stop ≡ None → IfCame result (λ r. desk.new.desk.stop ≡ result_err r) }
    ensures item { IfCame result (λ r. pass.new.items ≡ pass.old.items ++ record { pass = pass.old.number; item = item_of locus.old.number (length desk.old.desk.noted.entries) r desk.new.desk.noted.entries } ∷ []) }
    ensures items { IfCame result (λ r. desk.new.noting.items ≡ desk.old.noting.items ++ record { pass = pass.old.number; item = item_of locus.old.number (length desk.old.desk.noted.entries) r desk.new.desk.noted.entries } ∷ []) }
    ensures numbers { (pass.new.number ≡ pass.old.number) × (locus.new.number ≡ locus.old.number) × (other.new.number ≡ other.old.number) }
    ensures others { OthersStay (locus.old.number ∷ other.old.number ∷ []) desk.old.desk.cells desk.new.desk.cells }
{
    if desk.slip.is_full(slate) {
        return Answer::Full;
    }
    let place = desk.desk.place();
    match thread_desk_stables::look_two(&mut desk.desk, till, locus, other, gate) {
        None => Answer::Unfit,
        Some(came) => {
            let item = item_at(&desk.desk, entity_of(locus), place, &came);
            note_item(&mut desk.slip, slate, pass, item);
            Answer::Came(came)
        }
    }
}

/// The same where the step touches the atlas and another entity. The three cells are of different entities.
pub fn look_three<D: Disk, C: Line, B: Board<D> + Bench, S: Supplier, P: Policy>(
    desk: &mut ItemDesk<D, C, B>,
    till: &mut Till<D, B>,
    locus: &mut SightedCell<D, B>,
    atlas: &mut SightedCell<D, B>,
    other: &mut SightedCell<D, B>,
    gate: &Gate<S, P>,
    slate: &Slate<C, LookItem, B>,
    pass: &mut Pass<C, LookItem, B>,
) -> Answer
    requires keeps { S.keeps gate.now.supply }
    requires wishes { P.keeps gate.now.policy }
    requires managers { (B.begin.supply ≡ S.word gate.now.supply) × (B.begin.policy ≡ P.wish gate.now.policy) }
    requires apart { AllDiffer (locus.old.number ∷ atlas.old.number ∷ other.old.number ∷ []) }
    requires room { 0 < pass.old.room }
    ensures full { (result ≡ AnAnswer.Full) ↔ (2 ^ 62 ≤ length desk.old.noting.items) }
    ensures unfit { length desk.old.noting.items < 2 ^ 62 → desk.old.desk.stop ≡ None → (result ≡ AnAnswer.Unfit) ↔ WantsOthers desk.old.desk.cells locus.old.number (atlas.old.number ∷ other.old.number ∷ []) }
    ensures was_stopped { length desk.old.noting.items < 2 ^ 62 → IfSome desk.old.desk.stop (λ why. (result ≡ AnAnswer.Came (Err why)) × (desk.new.desk ≡ desk.old.desk) × (till.new ≡ till.old) × (locus.new ≡ locus.old) × (atlas.new ≡ atlas.old) × (other.new ≡ other.old)) }
    ensures undone { (result ≡ AnAnswer.Unfit) ⊎ (result ≡ AnAnswer.Full) → (desk.new ≡ desk.old) × (till.new ≡ till.old) × (pass.new ≡ pass.old) }
    ensures looks { desk.old.desk.stop ≡ None → IfCame result (LooksAsSerial D.Disk (S.word gate.now.supply) (P.wish gate.now.policy) locus.old.number (parts_of till.old desk.old.desk.cells desk.old.desk.noted) (parts_of till.new desk.new.desk.cells desk.new.desk.noted)) }
    ensures stop { desk.old.desk.stop ≡ None → IfCame result (λ r. desk.new.desk.stop ≡ result_err r) }
    ensures item { IfCame result (λ r. pass.new.items ≡ pass.old.items ++ record { pass = pass.old.number; item = item_of locus.old.number (length desk.old.desk.noted.entries) r desk.new.desk.noted.entries } ∷ []) }
    ensures items { IfCame result (λ r. desk.new.noting.items ≡ desk.old.noting.items ++ record { pass = pass.old.number; item = item_of locus.old.number (length desk.old.desk.noted.entries) r desk.new.desk.noted.entries } ∷ []) }
    ensures numbers { (pass.new.number ≡ pass.old.number) × (locus.new.number ≡ locus.old.number) × (atlas.new.number ≡ atlas.old.number) × (other.new.number ≡ other.old.number) }
    ensures others { OthersStay (locus.old.number ∷ atlas.old.number ∷ other.old.number ∷ []) desk.old.desk.cells desk.new.desk.cells }
{
    if desk.slip.is_full(slate) {
        return Answer::Full;
    }
    let place = desk.desk.place();
    match thread_desk_stables::look_three(&mut desk.desk, till, locus, atlas, other, gate) {
        None => Answer::Unfit,
        Some(came) => {
            let item = item_at(&desk.desk, entity_of(locus), place, &came);
            note_item(&mut desk.slip, slate, pass, item);
            Answer::Came(came)
        }
    }
}

/// The same where all 64 cells are lent, each at the place of its number, and the step touches the locus alone: behind it comes the Stable that it
/// owes, or its Snap where one is wished, as `thread_desk_stables::look_all`.
pub fn look_all<D: Disk, C: Line, B: Board<D> + Bench, S: Supplier, P: Policy>(
    desk: &mut ItemDesk<D, C, B>,
    till: &mut Till<D, B>,
    cells: &mut [MutexGuard<'_, SightedCell<D, B>>],
    me: Entity,
    gate: &Gate<S, P>,
    slate: &Slate<C, LookItem, B>,
    pass: &mut Pass<C, LookItem, B>,
) -> Answer
    requires keeps { S.keeps gate.now.supply }
    requires wishes { P.keeps gate.now.policy }
    requires managers { (B.begin.supply ≡ S.word gate.now.supply) × (B.begin.policy ≡ P.wish gate.now.policy) }
    requires row { IsRow (map (λ g. keeping_of (mutex_guard_value g)) cells.old) }
    requires room { 0 < pass.old.room }
    ensures full { (result ≡ AnAnswer.Full) ↔ (2 ^ 62 ≤ length desk.old.noting.items) }
    ensures unfit { length desk.old.noting.items < 2 ^ 62 → desk.old.desk.stop ≡ None → (result ≡ AnAnswer.Unfit) ↔ WantsOthers desk.old.desk.cells me [] }
    ensures was_stopped { length desk.old.noting.items < 2 ^ 62 → IfSome desk.old.desk.stop (λ why. (result ≡ AnAnswer.Came (Err why)) × (desk.new.desk ≡ desk.old.desk) × (till.new ≡ till.old) × (cells.new ≡ cells.old)) }
    ensures undone { (result ≡ AnAnswer.Unfit) ⊎ (result ≡ AnAnswer.Full) → (desk.new ≡ desk.old) × (till.new ≡ till.old) × (pass.new ≡ pass.old) }
    ensures looks { desk.old.desk.stop ≡ None → IfCame result (LooksAsSerial D.Disk (S.word gate.now.supply) (P.wish gate.now.policy) me (parts_of till.old desk.old.desk.cells desk.old.desk.noted) (parts_of till.new desk.new.desk.cells desk.new.desk.noted)) }
    ensures stop { desk.old.desk.stop ≡ None → IfCame result (λ r. desk.new.desk.stop ≡ result_err r) }
    ensures item { IfCame result (λ r. pass.new.items ≡ pass.old.items ++ record { pass = pass.old.number; item = item_of me (length desk.old.desk.noted.entries) r desk.new.desk.noted.entries } ∷ []) }
    ensures items { IfCame result (λ r. desk.new.noting.items ≡ desk.old.noting.items ++ record { pass = pass.old.number; item = item_of me (length desk.old.desk.noted.entries) r desk.new.desk.noted.entries } ∷ []) }
    ensures number { pass.new.number ≡ pass.old.number }
    ensures row { IsRow (map (λ g. keeping_of (mutex_guard_value g)) cells.new) }
{
    if desk.slip.is_full(slate) {
        return Answer::Full;
    }
    let place = desk.desk.place();
    match thread_desk_stables::look_all(&mut desk.desk, till, cells, me, gate) {
        None => Answer::Unfit,
        Some(came) => {
            let item = item_at(&desk.desk, me, place, &came);
            note_item(&mut desk.slip, slate, pass, item);
            Answer::Came(came)
        }
    }
}
