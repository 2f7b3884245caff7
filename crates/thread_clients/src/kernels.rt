//! A kernel whose cells lie under locks.
ghost use Rattle.std.specs.Prelude.{◌≡◌, ◌≤◌, ◌++◌, ℕ, List, None, Some, Err, IfOk, IfSome, length, take};
ghost use Rattle.std.specs.Result.{result_err};
ghost use Rattle.thread_stables.specs.kernel_core_facts.Kernels.{Lives, NotesAlong, StaysClean};
ghost use Rattle.thread_stables.specs.kernel_core_facts.kernel_invariant.Beginnings.{Beginning, run_of};
ghost use Rattle.thread_stables.specs.kernel_core_facts.model_serial.Serial.{look};
ghost use Rattle.thread_clients.specs.Running.{IsBehindLooks, stop_in};
ghost use Rattle.thread_stables.specs.thread_looks.Looking.{LooksAsSerial};

use crate::looking::look_under_locks;
use crate::parts::{LentCore, unlock_all};
use base_types::{Entity, Entry};
use edge_disk::Disk;
use edge_managers::{Gate, Policy, Supplier};
use std::alloc::{AllocError, Global};
use std::marker::Model;
use std::sync::{Mutex, Wait};
use thread_cells::LockedCell;
use thread_desk::{Apart, Cell, Kernel, Stopped};
use thread_history::{OpenedHistory, Run};
use thread_stables::{Looked, lock_all};
use thread_ties::{Bond, Opened};

/// Why the kernel has stopped behind what came of a look.
fn stop_of(came: &Option<Result<Looked, Stopped>>) -> Option<Stopped>
    ensures { result ≡ stop_in came.now }
{
    match came {
        Some(Err(why)) => Some(*why),
        _ => None,
    }
}

/// The parts of a kernel, each cell under a lock of its own. Contracts see the kernel.
#[derive(Drop)]
pub struct LentKernel<D: Disk, B: Bond<Cell> + Run<Entry>> {
    core: LentCore<D, B>,
    locks: Vec<Mutex<LockedCell<B>>>,
    stopped: Option<Stopped>,
}

impl<D: Disk, B: Bond<Cell> + Run<Entry>> Model for LentKernel<D, B> {
    ghost use Rattle.std.specs.Prelude.{◌≡◌, vec_len};
    ghost use Rattle.thread_desk.specs.kernel_core.Parts.{held_of};
    ghost use Rattle.thread_stables.specs.kernel_core_facts.Kernels.{Held, IsKept};

    ghost Value = { Held D };

    ghost view = { λ k. held_of k.core.store k.core.all k.core.notes k.stopped };

    ghost invariant = { λ k. (vec_len k.locks ≡ 64) × IsKept D.Disk (held_of k.core.store k.core.all k.core.notes k.stopped) };
}

impl<D: Disk + Drop, B: Bond<Cell> + Run<Entry>> LentKernel<D, B> {
    /// Takes a kernel apart and puts its cells under locks. It takes memory for the locks, the ties and the shares.
    pub fn of(
        alloc: Global,
        kernel: Kernel<D>,
        ties: Opened<Cell>,
        history: OpenedHistory<Entry>,
    ) -> Result<LentKernel<D, B>, AllocError>
        requires ties { (ties.table ≡ B.values_table) × (B.first_values ≡ kernel.parts.cells) }
        requires run { (history.table ≡ B.table) × (history.kept ≡ B.kept) }
        ensures { IfOk result (λ k. k ≡ kernel) }
    {
        let Apart {
            cells,
            store,
            notes,
            blob,
            stopped,
        } = kernel.apart();
        let (all, fragments) = ties.named::<B>(alloc, 64)?;
        let (_, shares) = history.named::<B>(alloc)?;
        let locks = lock_all(alloc, cells, shares, fragments)?;
        let core = LentCore {
            all,
            store,
            notes,
            blob,
        };
        Ok(LentKernel {
            core,
            locks,
            stopped,
        })
    }

    /// One look at a locus, for which the locks of those cells are taken that its step wants; it is the look of the serial kernel
    /// (`LooksAsSerial`). A kernel that has stopped does nothing, and tells why.
    ///
    /// None, and nothing done, only where a cell doesn't lie under the lock of its number, or where there is no memory for 64 guards.
    pub fn look<R: Wait, S: Supplier, P: Policy>(
        &mut self,
        rt: &R,
        alloc: Global,
        me: Entity,
        gate: &Gate<S, P>,
    ) -> Option<Result<Looked, Stopped>>
        requires keeps { S.keeps gate.now.supply }
        requires wishes { P.keeps gate.now.policy }
        requires clean { StaysClean D.Disk (S.word gate.now.supply) self.old }
        ensures was_stopped { IfSome self.old.stop (λ why. (result ≡ Some (Err why)) × (self.new ≡ self.old)) }
        ensures none { result ≡ None → self.new ≡ self.old }
        ensures ends { self.old.stop ≡ None → IfSome result (λ came. self.new.stop ≡ result_err came) }
        ensures looks { self.old.stop ≡ None → IfSome result (LooksAsSerial D.Disk (S.word gate.now.supply) (P.wish gate.now.policy) me self.old.parts self.new.parts) }
        ensures run { D.tells → (b : Beginning) → b.supply ≡ S.word gate.now.supply → b.policy ≡ P.wish gate.now.policy
            → Lives D.Disk b self.old → Lives D.Disk b self.new }
        ensures notes { D.tells → (b : Beginning) → b.supply ≡ S.word gate.now.supply → b.policy ≡ P.wish gate.now.policy
            → Lives D.Disk b self.old → self.old.stop ≡ None
            → IfSome result (λ _. NotesAlong D.Disk b (look b.supply b.policy b.script (run_of b self.old.parts.noted.entries) me) self.old self.new) }
        ensures clean { StaysClean D.Disk (S.word gate.now.supply) self.new }
    {
        if let Some(why) = self.stopped {
            return Some(Err(why));
        }
        let came = look_under_locks(rt, alloc, &mut self.core, &self.locks, me, gate);
        self.stopped = stop_of(&came);
        came
    }

    /// One look at each of these loci, one after another, and how many of them it came to: fewer than all only where a look gave none
    /// (`look`). A locus that can't step is passed over, and so is each once the kernel has stopped.
    ///
    /// A kernel that was behind looks at some loci in a run is behind these, too: its history is legal, and while it goes on it is exactly
    /// the births and those looks. Where it was stopped, it was in one of those looks, behind exactly those before it.
    pub fn look_at_each<R: Wait, S: Supplier, P: Policy>(
        &mut self,
        rt: &R,
        alloc: Global,
        loci: &[Entity],
        gate: &Gate<S, P>,
    ) -> usize
        requires keeps { S.keeps gate.now.supply }
        requires wishes { P.keeps gate.now.policy }
        requires clean { StaysClean D.Disk (S.word gate.now.supply) self.old }
        ensures count { result ≤ length loci.now }
        ensures behind { D.tells → (b : Beginning) (looked : List ℕ) → b.supply ≡ S.word gate.now.supply → b.policy ≡ P.wish gate.now.policy
            → IsBehindLooks D.Disk b looked self.old → IsBehindLooks D.Disk b (looked ++ take result loci.now) self.new }
        ensures clean { StaysClean D.Disk (S.word gate.now.supply) self.new }
    {
        for i in 0..loci.len() {
            if self.look(rt, alloc, loci[i], gate).is_none() {
                return i;
            }
        }
        loci.len()
    }

    /// The kernel of these parts. None where there is no memory for its cells, or where a cell lies under another's lock.
    pub fn together(self, alloc: Global) -> Option<Kernel<D>>
        ensures { IfSome result (λ kernel. kernel ≡ self) }
    {
        let LentKernel {
            core,
            locks,
            stopped,
        } = self;
        let LentCore {
            mut all,
            store,
            notes,
            blob,
        } = core;
        let cells = unlock_all(alloc, &mut all, locks)?;
        Some(Kernel::together(Apart {
            cells,
            store,
            notes,
            blob,
            stopped,
        }))
    }
}
