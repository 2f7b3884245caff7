// Looks at loci, by number and by name.
ghost use Rattle.std.specs.Prelude.{◌≡◌, ◌+◌, ◌*◌, ◌++◌, ◌∷◌, [], ℕ, List, None, Some, Err, IfErr, IfSome, length, map, slice_get, string_bytes};
ghost use Rattle.base_types.specs.declared.histories.Entry.{Entry as AnEntry};
ghost use Rattle.script_types.specs.model_kernel.Scripts.{locus_named};
ghost use Rattle.script_types.specs.model_kernel.Serial.{looks_of};
ghost use Rattle.script_types.specs.model_kernel.Steps.{atlas_in};
ghost use Rattle.kernel_run_facts.specs.kernel_commit_facts.Pieces.{CountsWithin};
ghost use Rattle.kernel_run_facts.specs.kernel_commits.Telling.{Tells, TriesByAnswer, told_again};
ghost use Rattle.kernel_run_facts.specs.kernel_core_facts.Kernels.{Lives, StaysClean};
ghost use Rattle.kernel_run_facts.specs.kernel_invariant.Beginnings.{Beginning, run_of};
ghost use Rattle.kernel_run_facts.specs.Running.{IsCauseOf, IsFrontOf, IsRunBy, RunsAlong, TakesOn, TakesOnBehind, look_most, opened_in, past_idle, picks_in};
ghost use Rattle.kernel_run_facts.specs.Watching.{GoesAlong, LooksLeave, answer_of};
ghost use Rattle.kernel_run_facts.specs.model_serial_turns.Turns.{before_pick};

use crate::watching::{Unwatched, Watcher, ask};
use base_types::{Entity, Kind};
use edge_disk::Disk;
use edge_managers::{Gate, Policy, Supplier};
use kernel_run_facts::{Halt, Kernel, Stop, kernel_answer};

/// A look that made no step is passed over.
fn unless_idle(stop: Stop) -> Result<(), Stop>
    ensures { result ≡ past_idle stop }
{
    match stop {
        Stop::Idle(_) => Ok(()),
        _ => Err(stop),
    }
}

/// One look at the locus with this number.
fn look_at<D: Disk, S: Supplier, P: Policy>(
    kernel: &mut Kernel<D>,
    locus: Entity,
    gate: &Gate<S, P>,
) -> Result<(), Stop>
    requires keeps { S.keeps gate.now.supply }
    requires wishes { P.keeps gate.now.policy }
    requires clean { StaysClean D.Disk (S.word gate.now.supply) kernel.old }
    requires going { kernel.old.stop ≡ None }
    ensures ends { Tells result kernel.new.stop }
    ensures caused { IfErr result (IsCauseOf D.Disk (P.wish gate.now.policy) kernel.old.parts kernel.new.parts) }
    ensures tries { TriesByAnswer result kernel.old.parts.noted.entries kernel.new.parts.noted.entries }
    ensures clean { StaysClean D.Disk (S.word gate.now.supply) kernel.new }
    ensures counts { CountsWithin D.Disk (look_most) kernel.old.parts.store kernel.new.parts.store }
    ensures run { D.tells → (b : Beginning) (first looked : List ℕ) → IsRunBy (S.word gate.now.supply) (P.wish gate.now.policy) b
        → IsFrontOf first (looked ++ locus ∷ []) → RunsAlong D.Disk b looked kernel.old
        → TakesOnBehind D.Disk b first (looked ++ locus ∷ []) kernel.new }
    ensures grows { D.tells → (b : Beginning) → IsRunBy (S.word gate.now.supply) (P.wish gate.now.policy) b → Lives D.Disk b kernel.old
        → (part : List AnEntry) × (kernel.new.parts.noted.entries ≡ kernel.old.parts.noted.entries ++ part) }
{
    match kernel.step(locus, gate) {
        Ok(_) => Ok(()),
        Err(stop) => unless_idle(stop),
    }
}

/// One look at the locus with this number, and behind it one of the watcher.
pub(crate) fn look_watched<D: Disk, S: Supplier, P: Policy, W: Watcher<D>>(
    kernel: &mut Kernel<D>,
    locus: Entity,
    gate: &Gate<S, P>,
    watcher: &mut W,
) -> Result<(), Halt>
    requires keeps { S.keeps gate.now.supply }
    requires wishes { P.keeps gate.now.policy }
    requires clean { StaysClean D.Disk (S.word gate.now.supply) kernel.old }
    requires going { kernel.old.stop ≡ None }
    ensures ends { Tells (answer_of result) kernel.new.stop }
    ensures caused { IfErr (answer_of result) (IsCauseOf D.Disk (P.wish gate.now.policy) kernel.old.parts kernel.new.parts) }
    ensures tries { TriesByAnswer (answer_of result) kernel.old.parts.noted.entries kernel.new.parts.noted.entries }
    ensures clean { StaysClean D.Disk (S.word gate.now.supply) kernel.new }
    ensures counts { CountsWithin D.Disk (look_most) kernel.old.parts.store kernel.new.parts.store }
    ensures run { D.tells → (b : Beginning) (first looked : List ℕ) → IsRunBy (S.word gate.now.supply) (P.wish gate.now.policy) b
        → IsFrontOf first (looked ++ locus ∷ []) → GoesAlong D.Disk (W.watches watcher.old) b looked kernel.old
        → LooksLeave D.Disk (W.watches watcher.new) (W.leaves watcher.new) b first (looked ++ locus ∷ []) result kernel.new }
{
    if let Err(stop) = look_at(kernel, locus, gate) {
        return Err(Halt::Kernel(stop));
    }
    ask(watcher, kernel)
}

/// The locus of a name, if it has one.
fn locus_called<D: Disk>(kernel: &Kernel<D>, name: &str) -> Option<Entity>
    ensures { D.tells → (b : Beginning) (l : ℕ) → Lives D.Disk b kernel.now
        → locus_named (atlas_in ((run_of b kernel.now.parts.noted.entries).state 0).cell) name.now ≡ Some l → result ≡ Some l }
{
    let atlas = kernel.atlas();
    if atlas.named(Kind::Locus) == 0 {
        return None;
    }
    atlas.find(name)
}

/// A look at the locus of this name; a name that no entity has is passed over.
fn look_for<D: Disk, S: Supplier, P: Policy, W: Watcher<D>>(
    kernel: &mut Kernel<D>,
    name: &str,
    gate: &Gate<S, P>,
    watcher: &mut W,
) -> Result<(), Halt>
    requires keeps { S.keeps gate.now.supply }
    requires wishes { P.keeps gate.now.policy }
    requires clean { StaysClean D.Disk (S.word gate.now.supply) kernel.old }
    requires going { kernel.old.stop ≡ None }
    ensures ends { Tells (answer_of result) kernel.new.stop }
    ensures caused { IfErr (answer_of result) (IsCauseOf D.Disk (P.wish gate.now.policy) kernel.old.parts kernel.new.parts) }
    ensures tries { TriesByAnswer (answer_of result) kernel.old.parts.noted.entries kernel.new.parts.noted.entries }
    ensures clean { StaysClean D.Disk (S.word gate.now.supply) kernel.new }
    ensures counts { CountsWithin D.Disk (look_most) kernel.old.parts.store kernel.new.parts.store }
    ensures run { D.tells → (b : Beginning) (i : ℕ) → IsRunBy (S.word gate.now.supply) (P.wish gate.now.policy) b
        → slice_get b.script.order i ≡ Some name.now
        → GoesAlong D.Disk (W.watches watcher.old) b (before_pick b.script (opened_in b) i) kernel.old
        → LooksLeave D.Disk (W.watches watcher.new) (W.leaves watcher.new) b (picks_in b) (before_pick b.script (opened_in b) (i + 1)) result kernel.new }
{
    match locus_called(kernel, name) {
        Some(locus) => look_watched(kernel, locus, gate, watcher),
        None => Ok(()),
    }
}

/// A look at each pick of an order, by name.
pub(crate) fn look_for_all<D: Disk, S: Supplier, P: Policy, W: Watcher<D>>(
    kernel: &mut Kernel<D>,
    order: &[String],
    gate: &Gate<S, P>,
    watcher: &mut W,
) -> Result<(), Halt>
    requires keeps { S.keeps gate.now.supply }
    requires wishes { P.keeps gate.now.policy }
    requires clean { StaysClean D.Disk (S.word gate.now.supply) kernel.old }
    requires going { kernel.old.stop ≡ None }
    ensures ends { Tells (answer_of result) kernel.new.stop }
    ensures caused { IfErr (answer_of result) (IsCauseOf D.Disk (P.wish gate.now.policy) kernel.old.parts kernel.new.parts) }
    ensures tries { TriesByAnswer (answer_of result) kernel.old.parts.noted.entries kernel.new.parts.noted.entries }
    ensures clean { StaysClean D.Disk (S.word gate.now.supply) kernel.new }
    ensures counts { CountsWithin D.Disk (length order.now * look_most) kernel.old.parts.store kernel.new.parts.store }
    ensures run { D.tells → (b : Beginning) → IsRunBy (S.word gate.now.supply) (P.wish gate.now.policy) b
        → b.script.order ≡ map string_bytes order.now
        → GoesAlong D.Disk (W.watches watcher.old) b [] kernel.old
        → LooksLeave D.Disk (W.watches watcher.new) (W.leaves watcher.new) b (picks_in b) (looks_of b.script (opened_in b) 0) result kernel.new }
{
    for i in 0..order.len() {
        if let Err(halt) = look_for(kernel, order[i].as_str(), gate, watcher) {
            return Err(halt);
        }
    }
    Ok(())
}

/// Plays the order of a script whose births were made: a look at the locus of each name, one after another. A kernel that a fault meets
/// stops, and looks at no more. A kernel that has stopped does nothing, and answers `Shut` behind a fault of the disk, and the same
/// `NoBlocks` behind want of blocks.
///
/// Each look costs a search for the name in the directory, and 99,585 writes and syncs at most.
pub fn play<D: Disk, S: Supplier, P: Policy>(
    kernel: &mut Kernel<D>,
    order: &[String],
    gate: &Gate<S, P>,
) -> Result<(), Stop>
    requires keeps { S.keeps gate.now.supply }
    requires wishes { P.keeps gate.now.policy }
    requires clean { StaysClean D.Disk (S.word gate.now.supply) kernel.old }
    ensures was_stopped { IfSome kernel.old.stop (λ why. (result ≡ Err (told_again why)) × (kernel.new ≡ kernel.old)) }
    ensures ends { kernel.old.stop ≡ None → Tells result kernel.new.stop }
    ensures caused { kernel.old.stop ≡ None → IfErr result (IsCauseOf D.Disk (P.wish gate.now.policy) kernel.old.parts kernel.new.parts) }
    ensures tries { TriesByAnswer result kernel.old.parts.noted.entries kernel.new.parts.noted.entries }
    ensures clean { StaysClean D.Disk (S.word gate.now.supply) kernel.new }
    ensures counts { CountsWithin D.Disk (length order.now * look_most) kernel.old.parts.store kernel.new.parts.store }
    ensures run { D.tells → kernel.old.stop ≡ None → (b : Beginning) → IsRunBy (S.word gate.now.supply) (P.wish gate.now.policy) b
        → b.script.order ≡ map string_bytes order.now
        → RunsAlong D.Disk b [] kernel.old
        → TakesOn D.Disk b (looks_of b.script (opened_in b) 0) kernel.new }
{
    if let Some(why) = kernel.stopped() {
        return Err(Stop::told_again(why));
    }
    let went = look_for_all(kernel, order, gate, &mut Unwatched);
    kernel_answer(went)
}
