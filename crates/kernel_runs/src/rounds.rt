// Rounds over all loci, until one makes no entry.
ghost use Rattle.std.specs.Prelude.{◌≡◌, ◌+◌, ◌*◌, ◌^◌, ◌≤◌, ◌++◌, ℕ, List, None, Some, Err, IfErr, IfSome, length};
ghost use Rattle.script_types.specs.model_kernel.Serial.{looks_of, rounds};
ghost use Rattle.script_types.specs.model_kernel.Steps.{atlas_in};
ghost use Rattle.kernel_run_facts.specs.kernel_commit_facts.Pieces.{CountsWithin};
ghost use Rattle.kernel_run_facts.specs.kernel_commits.Telling.{Tells, TriesByAnswer, told_again};
ghost use Rattle.kernel_run_facts.specs.kernel_core_facts.Kernels.{Lives, StaysClean};
ghost use Rattle.kernel_run_facts.specs.kernel_invariant.Beginnings.{Beginning, run_of};
ghost use Rattle.kernel_run_facts.specs.Running.{EndsBehind, EndsRun, IsCauseOf, IsRunBy, RunsAlong, end_of, look_most, opened_in};
ghost use Rattle.kernel_run_facts.specs.Watching.{GoesAlong, LooksLeave, RoundsLeave, answer_of};

use crate::looking::look_watched;
use crate::watching::{Unwatched, Watcher};
use base_types::{Entity, FIRST_LOCUS, Kind};
use edge_disk::Disk;
use edge_managers::{Gate, Policy, Supplier};
use kernel_run_facts::{Halt, Kernel, Stop, kernel_answer};

/// The number behind the last locus that is born.
fn loci_end<D: Disk>(kernel: &Kernel<D>) -> u8
    ensures few { result ≤ 64 }
    ensures past { D.tells → (b : Beginning) → Lives D.Disk b kernel.now
        → end_of (atlas_in ((run_of b kernel.now.parts.noted.entries).state 0).cell) ≤ result }
{
    FIRST_LOCUS + kernel.atlas().named(Kind::Locus)
}

/// A round: one look at each locus that is born, by number, and so at one that is born in the round, too.
fn round<D: Disk, S: Supplier, P: Policy, W: Watcher<D>>(
    kernel: &mut Kernel<D>,
    gate: &Gate<S, P>,
    watcher: &mut W,
) -> Result<(), Halt>
    requires keeps { S.keeps gate.now.supply }
    requires wishes { P.keeps gate.now.policy }
    requires clean { StaysClean D.Disk (S.word gate.now.supply) kernel.old }
    requires going { kernel.old.stop ≡ None }
    ensures ends { Tells (answer_of result) kernel.new.stop }
    ensures caused { IfErr (answer_of result) (IsCauseOf D.Disk (P.wish gate.now.policy) kernel.old.parts kernel.new.parts) }
    ensures tries { TriesByAnswer (answer_of result) kernel.old.parts.noted.entries kernel.new.parts.noted.entries }
    ensures clean { StaysClean D.Disk (S.word gate.now.supply) kernel.new }
    ensures counts { CountsWithin D.Disk (23 * look_most) kernel.old.parts.store kernel.new.parts.store }
    ensures run { D.tells → (b : Beginning) (first : List ℕ) (made : ℕ) → IsRunBy (S.word gate.now.supply) (P.wish gate.now.policy) b
        → GoesAlong D.Disk (W.watches watcher.old) b (first ++ rounds made) kernel.old
        → LooksLeave D.Disk (W.watches watcher.new) (W.leaves watcher.new) b first (first ++ rounds (made + 1)) result kernel.new }
{
    let mut number = FIRST_LOCUS;
    while number < loci_end(kernel) {
        if let Err(halt) = look_watched(kernel, Entity::of(number), gate, watcher) {
            return Err(halt);
        }
        number += 1;
    }
    Ok(())
}

/// How many entries are noted.
fn entries_noted<D: Disk>(kernel: &Kernel<D>) -> usize
    ensures count { result ≡ length kernel.now.parts.noted.entries }
    ensures few { kernel.now.stop ≡ None → result ≤ 2 ^ 22 }
{
    kernel.history().len()
}

/// Rounds over the loci, until one makes no entry.
pub(crate) fn go_round<D: Disk, S: Supplier, P: Policy, W: Watcher<D>>(
    kernel: &mut Kernel<D>,
    gate: &Gate<S, P>,
    watcher: &mut W,
) -> Result<(), Halt>
    requires keeps { S.keeps gate.now.supply }
    requires wishes { P.keeps gate.now.policy }
    requires clean { StaysClean D.Disk (S.word gate.now.supply) kernel.old }
    requires going { kernel.old.stop ≡ None }
    ensures ends { Tells (answer_of result) kernel.new.stop }
    ensures caused { IfErr (answer_of result) (IsCauseOf D.Disk (P.wish gate.now.policy) kernel.old.parts kernel.new.parts) }
    ensures tries { TriesByAnswer (answer_of result) kernel.old.parts.noted.entries kernel.new.parts.noted.entries }
    ensures clean { StaysClean D.Disk (S.word gate.now.supply) kernel.new }
    ensures counts { CountsWithin D.Disk ((2 ^ 22 + 1) * (23 * look_most)) kernel.old.parts.store kernel.new.parts.store }
    ensures run { D.tells → (b : Beginning) (first : List ℕ) (made : ℕ) → IsRunBy (S.word gate.now.supply) (P.wish gate.now.policy) b
        → GoesAlong D.Disk (W.watches watcher.old) b (first ++ rounds made) kernel.old
        → RoundsLeave D.Disk (W.watches watcher.new) (W.leaves watcher.new) b first result kernel.new }
{
    loop {
        let noted = entries_noted(kernel);
        if let Err(halt) = round(kernel, gate, watcher) {
            return Err(halt);
        }
        if entries_noted(kernel) <= noted {
            return Ok(());
        }
    }
}

/// Goes on, behind the births and looks at any loci in any order, with rounds over the loci until one makes no entry. A kernel that a fault
/// meets stops, and looks at no more. A kernel that has stopped does nothing, and answers `Shut` behind a fault of the disk, and the same
/// `NoBlocks` behind want of blocks.
///
/// A round costs a look at each locus that is born. Each round but the last notes an entry, so there are at most as many as the loci have
/// steps, and one beside.
pub fn finish<D: Disk, S: Supplier, P: Policy>(
    kernel: &mut Kernel<D>,
    gate: &Gate<S, P>,
) -> Result<(), Stop>
    requires keeps { S.keeps gate.now.supply }
    requires wishes { P.keeps gate.now.policy }
    requires clean { StaysClean D.Disk (S.word gate.now.supply) kernel.old }
    ensures was_stopped { IfSome kernel.old.stop (λ why. (result ≡ Err (told_again why)) × (kernel.new ≡ kernel.old)) }
    ensures ends { kernel.old.stop ≡ None → Tells result kernel.new.stop }
    ensures caused { kernel.old.stop ≡ None → IfErr result (IsCauseOf D.Disk (P.wish gate.now.policy) kernel.old.parts kernel.new.parts) }
    ensures tries { TriesByAnswer result kernel.old.parts.noted.entries kernel.new.parts.noted.entries }
    ensures clean { StaysClean D.Disk (S.word gate.now.supply) kernel.new }
    ensures counts { CountsWithin D.Disk ((2 ^ 22 + 1) * (23 * look_most)) kernel.old.parts.store kernel.new.parts.store }
    ensures behind { D.tells → kernel.old.stop ≡ None → (b : Beginning) (first : List ℕ) (made : ℕ) → IsRunBy (S.word gate.now.supply) (P.wish gate.now.policy) b
        → RunsAlong D.Disk b (first ++ rounds made) kernel.old
        → EndsBehind D.Disk b first kernel.new }
    ensures run { D.tells → kernel.old.stop ≡ None → (b : Beginning) (made : ℕ) → IsRunBy (S.word gate.now.supply) (P.wish gate.now.policy) b
        → RunsAlong D.Disk b (looks_of b.script (opened_in b) made) kernel.old
        → EndsRun D.Disk b kernel.new }
{
    if let Some(why) = kernel.stopped() {
        return Err(Stop::told_again(why));
    }
    let went = go_round(kernel, gate, &mut Unwatched);
    kernel_answer(went)
}
