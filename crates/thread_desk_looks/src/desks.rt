// Looks in the desk, with both locks in hand.
ghost use Rattle.std.specs.Prelude.{◌≡◌, ◌↔◌, ◌⊎◌, ◌∷◌, [], None, Some, Err, IfSome, length};
ghost use Rattle.thread_looks.specs.kernel_core_facts.kernel_commit_facts.Parts.{parts_of};
ghost use Rattle.thread_looks.specs.thread_cell_steps.Advancing.{WantsOthers};
ghost use Rattle.thread_looks.specs.thread_commits.Lent.{OthersStay};
ghost use Rattle.thread_history.specs.Rules.{AllDiffer};
ghost use Rattle.thread_looks.specs.Looking.{LooksAsSerial, NotesLook, WantsStable, stop_in};
ghost use Rattle.thread_desk_looks.specs.Items.{IsTrueOf};

use crate::looking::{told_one, told_three, told_two};
use edge_disk::Disk;
use edge_managers::{Gate, Policy, Supplier};
use thread_desk::{Board, Desk, SightedCell, Till, hear_lent, tell_store};
use thread_looks::{Looked, Stopped, stop_of};

/// One look at a locus whose step touches it alone and owes no Stable, with the store's lock and the history's in hand: its step, and behind it
/// the Snap that is wished. `None`, and nothing done, exactly where other cells are wanted. A kernel that has stopped does nothing, and tells why.
///
/// It is the look of the serial kernel, with its stops, over what the desk knows (`LooksAsSerial`); and what it tells is true of the desk's
/// history, after as many entries as that had (`IsTrueOf`). Each entry is told by the shares of the lent cells, and behind the look they have
/// heard the whole history. It takes no memory.
pub fn look_one<D: Disk, B: Board<D>, S: Supplier, P: Policy>(
    desk: &mut Desk<D, B>,
    till: &mut Till<D, B>,
    locus: &mut SightedCell<D, B>,
    gate: &Gate<S, P>,
) -> Option<Result<Looked, Stopped>>
    requires keeps { S.keeps gate.now.supply }
    requires wishes { P.keeps gate.now.policy }
    requires managers { (B.begin.supply ≡ S.word gate.now.supply) × (B.begin.policy ≡ P.wish gate.now.policy) }
    ensures was_stopped { IfSome desk.old.stop (λ why. (result ≡ Some (Err why)) × (desk.new ≡ desk.old) × (till.new ≡ till.old) × (locus.new ≡ locus.old)) }
    ensures unfit { desk.old.stop ≡ None → (result ≡ None) ↔ (WantsOthers desk.old.cells locus.old.number [] ⊎ WantsStable desk.old.cells locus.old.number) }
    ensures undone { result ≡ None → (desk.new ≡ desk.old) × (till.new ≡ till.old) }
    ensures looks { desk.old.stop ≡ None → IfSome result (LooksAsSerial D.Disk (S.word gate.now.supply) (P.wish gate.now.policy) locus.old.number (parts_of till.old desk.old.cells desk.old.noted) (parts_of till.new desk.new.cells desk.new.noted)) }
    ensures stop { desk.old.stop ≡ None → desk.new.stop ≡ stop_in result }
    ensures item { IfSome result (IsTrueOf B.terms.told B.begin locus.old.number (length desk.old.noted.entries) desk.new.noted.entries) }
    ensures notes { NotesLook locus.old.number (locus.old.number ∷ []) desk.old.noted.entries desk.new.noted.entries }
    ensures others { OthersStay (locus.old.number ∷ []) desk.old.cells desk.new.cells }
    ensures numbers { locus.new.number ≡ locus.old.number }
    ensures heard { desk.old.stop ≡ None → (locus.new.known ≡ desk.new.told) }
{
    if let Some(why) = desk.stopped {
        return Some(Err(why));
    }
    desk.stores.agree(&mut till.fragment);
    let came = told_one(
        &mut desk.cells,
        &mut desk.annals,
        &mut locus.locked,
        &mut till.store,
        &mut desk.notes,
        &mut desk.blob,
        gate,
    );
    tell_store(&mut desk.stores, &mut till.fragment, &till.store);
    locus.seen = hear_lent(
        &mut desk.cells,
        &mut desk.annals,
        &till.store,
        &mut locus.locked,
    );
    desk.stopped = stop_of(&came);
    came
}

/// The same where the step touches one entity beside the locus. The two cells are of different entities.
pub fn look_two<D: Disk, B: Board<D>, S: Supplier, P: Policy>(
    desk: &mut Desk<D, B>,
    till: &mut Till<D, B>,
    locus: &mut SightedCell<D, B>,
    other: &mut SightedCell<D, B>,
    gate: &Gate<S, P>,
) -> Option<Result<Looked, Stopped>>
    requires keeps { S.keeps gate.now.supply }
    requires wishes { P.keeps gate.now.policy }
    requires managers { (B.begin.supply ≡ S.word gate.now.supply) × (B.begin.policy ≡ P.wish gate.now.policy) }
    requires apart { AllDiffer (locus.old.number ∷ other.old.number ∷ []) }
    ensures was_stopped { IfSome desk.old.stop (λ why. (result ≡ Some (Err why)) × (desk.new ≡ desk.old) × (till.new ≡ till.old) × (locus.new ≡ locus.old) × (other.new ≡ other.old)) }
    ensures unfit { desk.old.stop ≡ None → (result ≡ None) ↔ WantsOthers desk.old.cells locus.old.number (other.old.number ∷ []) }
    ensures undone { result ≡ None → (desk.new ≡ desk.old) × (till.new ≡ till.old) }
    ensures looks { desk.old.stop ≡ None → IfSome result (LooksAsSerial D.Disk (S.word gate.now.supply) (P.wish gate.now.policy) locus.old.number (parts_of till.old desk.old.cells desk.old.noted) (parts_of till.new desk.new.cells desk.new.noted)) }
    ensures stop { desk.old.stop ≡ None → desk.new.stop ≡ stop_in result }
    ensures item { IfSome result (IsTrueOf B.terms.told B.begin locus.old.number (length desk.old.noted.entries) desk.new.noted.entries) }
    ensures notes { NotesLook locus.old.number (locus.old.number ∷ other.old.number ∷ []) desk.old.noted.entries desk.new.noted.entries }
    ensures others { OthersStay (locus.old.number ∷ other.old.number ∷ []) desk.old.cells desk.new.cells }
    ensures numbers { (locus.new.number ≡ locus.old.number) × (other.new.number ≡ other.old.number) }
    ensures heard { desk.old.stop ≡ None → (locus.new.known ≡ desk.new.told) × (other.new.known ≡ desk.new.told) }
{
    if let Some(why) = desk.stopped {
        return Some(Err(why));
    }
    desk.stores.agree(&mut till.fragment);
    let came = told_two(
        &mut desk.cells,
        &mut desk.annals,
        &mut locus.locked,
        &mut other.locked,
        &mut till.store,
        &mut desk.notes,
        &mut desk.blob,
        gate,
    );
    tell_store(&mut desk.stores, &mut till.fragment, &till.store);
    locus.seen = hear_lent(
        &mut desk.cells,
        &mut desk.annals,
        &till.store,
        &mut locus.locked,
    );
    other.seen = hear_lent(
        &mut desk.cells,
        &mut desk.annals,
        &till.store,
        &mut other.locked,
    );
    desk.stopped = stop_of(&came);
    came
}

/// The same where the step touches the atlas and one entity beside the locus. The three cells are of different entities.
pub fn look_three<D: Disk, B: Board<D>, S: Supplier, P: Policy>(
    desk: &mut Desk<D, B>,
    till: &mut Till<D, B>,
    locus: &mut SightedCell<D, B>,
    atlas: &mut SightedCell<D, B>,
    other: &mut SightedCell<D, B>,
    gate: &Gate<S, P>,
) -> Option<Result<Looked, Stopped>>
    requires keeps { S.keeps gate.now.supply }
    requires wishes { P.keeps gate.now.policy }
    requires managers { (B.begin.supply ≡ S.word gate.now.supply) × (B.begin.policy ≡ P.wish gate.now.policy) }
    requires apart { AllDiffer (locus.old.number ∷ atlas.old.number ∷ other.old.number ∷ []) }
    ensures was_stopped { IfSome desk.old.stop (λ why. (result ≡ Some (Err why)) × (desk.new ≡ desk.old) × (till.new ≡ till.old) × (locus.new ≡ locus.old) × (atlas.new ≡ atlas.old) × (other.new ≡ other.old)) }
    ensures unfit { desk.old.stop ≡ None → (result ≡ None) ↔ WantsOthers desk.old.cells locus.old.number (atlas.old.number ∷ other.old.number ∷ []) }
    ensures undone { result ≡ None → (desk.new ≡ desk.old) × (till.new ≡ till.old) }
    ensures looks { desk.old.stop ≡ None → IfSome result (LooksAsSerial D.Disk (S.word gate.now.supply) (P.wish gate.now.policy) locus.old.number (parts_of till.old desk.old.cells desk.old.noted) (parts_of till.new desk.new.cells desk.new.noted)) }
    ensures stop { desk.old.stop ≡ None → desk.new.stop ≡ stop_in result }
    ensures item { IfSome result (IsTrueOf B.terms.told B.begin locus.old.number (length desk.old.noted.entries) desk.new.noted.entries) }
    ensures notes { NotesLook locus.old.number (locus.old.number ∷ atlas.old.number ∷ other.old.number ∷ []) desk.old.noted.entries desk.new.noted.entries }
    ensures others { OthersStay (locus.old.number ∷ atlas.old.number ∷ other.old.number ∷ []) desk.old.cells desk.new.cells }
    ensures numbers { (locus.new.number ≡ locus.old.number) × (atlas.new.number ≡ atlas.old.number) × (other.new.number ≡ other.old.number) }
    ensures heard { desk.old.stop ≡ None → (locus.new.known ≡ desk.new.told) × (atlas.new.known ≡ desk.new.told) × (other.new.known ≡ desk.new.told) }
{
    if let Some(why) = desk.stopped {
        return Some(Err(why));
    }
    desk.stores.agree(&mut till.fragment);
    let came = told_three(
        &mut desk.cells,
        &mut desk.annals,
        &mut locus.locked,
        &mut atlas.locked,
        &mut other.locked,
        &mut till.store,
        &mut desk.notes,
        &mut desk.blob,
        gate,
    );
    tell_store(&mut desk.stores, &mut till.fragment, &till.store);
    locus.seen = hear_lent(
        &mut desk.cells,
        &mut desk.annals,
        &till.store,
        &mut locus.locked,
    );
    atlas.seen = hear_lent(
        &mut desk.cells,
        &mut desk.annals,
        &till.store,
        &mut atlas.locked,
    );
    other.seen = hear_lent(
        &mut desk.cells,
        &mut desk.annals,
        &till.store,
        &mut other.locked,
    );
    desk.stopped = stop_of(&came);
    came
}
