// A running kernel.
ghost use Rattle.std.specs.Prelude.{◌≡◌, ◌↔◌, ◌+◌, ◌*◌, ◌^◌, ◌≤◌, ℕ, List, [], true, false, None, Some, Ok, Err, IfErr, IfOk, IfSome, IsErrOf, OnOk, length, slice_get};
ghost use Rattle.script_types.specs.model_kernel.State.{Supply};
ghost use Rattle.kernel_core_facts.specs.cell_states.declared.cells.Cell.{Cell as ACell};
ghost use Rattle.kernel_core_facts.specs.cell_states.declared.cells.Part.{Part as APart};
ghost use Rattle.kernel_core_facts.specs.model_births.Fitting.{Fits};
ghost use Rattle.script_types.specs.Rules.{IsScript};
ghost use Rattle.script_types.specs.Scripts.{tables_of};
ghost use Rattle.kernel_core_facts.specs.table_births.Births.{atlas_state_in};
ghost use Rattle.kernel_core_facts.specs.kernel_laws.Opening.{empty_script, with_script};
ghost use Rattle.kernel_core_facts.specs.Bearing.{HasOpened, IsShortBehind};
ghost use Rattle.kernel_core_facts.specs.Kernels.{Lives, MayBegin, NotesAlong, StaysClean};
ghost use Rattle.kernel_core_facts.specs.kernel_commit_facts.Pieces.{CountsWithin};
ghost use Rattle.edge_disk.specs.Counts.{Rose};
ghost use Rattle.kernel_core_facts.specs.Looking.{LooksOnce, StopsWhere};
ghost use Rattle.kernel_core_facts.specs.kernel_commit_facts.Recording.{HasRecorded, HasTried};
ghost use Rattle.kernel_core_facts.specs.kernel_commit_facts.Short.{IsSnapShort};
ghost use Rattle.kernel_core_facts.specs.kernel_commit_facts.Snapping.{Snaps};
ghost use Rattle.kernel_core_facts.specs.Stepping.{idle_at};
ghost use Rattle.kernel_core_facts.specs.cell_plans.declared.idle.Idle.{Idle as AnIdle};
ghost use Rattle.kernel_core_facts.specs.kernel_commits.Telling.{FailsByDisk, FailsByWrite, Tells, TriesByAnswer, told_again};
ghost use Rattle.kernel_core_facts.specs.kernel_invariant.Beginnings.{Beginning, run_of};
ghost use Rattle.kernel_core_facts.specs.kernel_records.Committing.{CommitCounts};
ghost use Rattle.kernel_core_facts.specs.model_serial.Serial.{look, opening, wished_snap};

use crate::bearing::open_core;
use crate::looking::look_core;
use crate::stepping::{answered, why_stopped};
use base_bytes::Blob;
use base_types::{Entity, Entry};
use data_atlas::Atlas;
use edge_disk::{Disk, NoBlocks};
use edge_managers::{Gate, Policy, Supplier};
use kernel_core_facts::{
    Cell, Core, Notes, OpenFault, OpenWhy, Part, Stop, Stopped, Store, snap_one, told_of,
};
use script_types::Script;
use std::alloc::{AllocError, Global};
use std::marker::Model;

// A run on one thread with so many steps of each locus has four entries at most for each step, those of the births with their Stable, and
// a record of each entity beside.
const ENTRIES_A_STEP: usize = 4 * 23;

const ENTRIES_BESIDE: usize = 200;

// The memory of a kernel for runs with so many steps of each locus: that of the history, and of one blob.
fn memory_for(alloc: Global, steps: u32) -> Result<(Notes, Blob), AllocError>
    requires few { steps ≤ 40000 }
    ensures nothing { IfOk result (λ m. (m.0.entries ≡ []) × (m.0.marks ≡ [])) }
    ensures room { IfOk result (λ m. m.0.room ≡ 92 * steps + 200) }
{
    let room = ENTRIES_A_STEP * steps as usize + ENTRIES_BESIDE;
    let notes = Notes::new(alloc, room)?;
    let blob = Blob::new(alloc)?;
    Ok((notes, blob))
}

/// A kernel over the cells of its entities and the store of its image. It takes no memory after it has begun.
#[derive(Drop)]
pub struct Kernel<D: Disk> {
    pub(crate) core: Core<D>,
    pub(crate) stopped: Option<Stopped>,
}

/// What is left of a kernel: its disk, the history with its marks, and why it had stopped, if it had.
#[derive(Drop)]
pub struct Ended<D> {
    pub disk: D,
    pub history: Vec<Entry>,
    pub marks: Vec<u64>,
    pub stopped: Option<Stopped>,
}

impl<D: Disk> Model for Kernel<D> {
    ghost use Rattle.kernel_core_facts.specs.Kernels.{Held, IsKept};

    ghost Value = { Held D };

    ghost view = { λ k. record { parts = k.core; stop = k.stopped } };

    ghost invariant = { λ k. IsKept D.Disk (record { parts = k.core; stop = k.stopped }) };
}

impl<D: Disk> Kernel<D> {
    /// A kernel over a store and the 64 cells of its image, for runs with so many steps of each locus. It takes the memory of the
    /// history, 92 entries of 64 bytes for each step and 200 beside, and of one blob. Where that runs out, the disk comes back.
    pub fn begin(
        alloc: Global,
        store: Store<D>,
        cells: Vec<Cell>,
        steps: u32,
    ) -> Result<Kernel<D>, OpenFault<D>>
        requires may { MayBegin D.Disk steps store cells.items }
        ensures parts { IfOk result (λ k. (k.parts.store ≡ store) × (k.parts.cells ≡ cells.items)) }
        ensures nothing { IfOk result (λ k. (k.parts.noted.entries ≡ []) × (k.parts.noted.marks ≡ []) × (k.stop ≡ None)) }
        ensures room { IfOk result (λ k. k.parts.noted.room ≡ 92 * steps + 200) }
        ensures memory { IfErr result (λ fault. (fault.why ≡ OpenWhy.Memory) × (fault.disk ≡ store.disk)) }
    {
        match memory_for(alloc, steps) {
            Ok((notes, blob)) => {
                let core = Core {
                    store,
                    cells,
                    blob,
                    notes,
                };
                Ok(Kernel {
                    core,
                    stopped: None,
                })
            }
            Err(_) => Err(OpenFault {
                why: OpenWhy::Memory,
                disk: store.into_disk(),
            }),
        }
    }

    /// The history of the run so far.
    pub fn history(&self) -> &[Entry]
        ensures entries { result.now ≡ self.now.parts.noted.entries }
        ensures few { self.now.stop ≡ None → length result.now ≤ 2 ^ 22 }
    {
        self.core.notes.entries()
    }

    /// How many writes and syncs were begun, of the store, when each of the history's records stood, one after another.
    pub fn marks(&self) -> &[u64]
        ensures { result.now ≡ self.now.parts.noted.marks }
    {
        self.core.notes.marks()
    }

    /// The 64 cells, each at its entity's number.
    pub fn cells(&self) -> &[Cell]
        ensures { result.now ≡ self.now.parts.cells }
    {
        &self.core.cells
    }

    /// The directory of who is born.
    pub fn atlas(&self) -> &Atlas
        ensures { (c : ACell) → slice_get self.now.parts.cells 0 ≡ Some c → c.part ≡ APart.Atlas result.now }
    {
        match &self.core.cells[0].part {
            Part::Atlas(atlas) => atlas,
            _ => unreachable!(),
        }
    }

    /// Why the kernel has stopped, if it has.
    pub fn stopped(&self) -> Option<Stopped>
        ensures { result ≡ self.now.stop }
    {
        self.stopped
    }

    /// The disk as the kernel left it, with the history and the marks.
    pub fn into_ended(self) -> Ended<D>
        ensures disk { result.disk ≡ self.parts.store.disk }
        ensures history { result.history.items ≡ self.parts.noted.entries }
        ensures marks { result.marks.items ≡ self.parts.noted.marks }
        ensures stopped { result.stopped ≡ self.stop }
    {
        let stopped = self.stopped;
        let core = self.core;
        let store = core.store;
        let notes = core.notes;
        let (history, marks) = notes.into_lists();
        Ended {
            disk: store.into_disk(),
            history,
            marks,
            stopped,
        }
    }

    /// Makes a record of an entity where one is wished and fewer than four kept records are its own, and tells whether it did. A kernel
    /// that a fault meets stops.
    ///
    /// `NoBlocks` comes exactly where fewer blocks are free than the record needs, with both numbers, before the first write. `WriteFault`
    /// comes only where the disk's count of faults rose: the record may be found when the image is opened again, or not. A kernel that has
    /// stopped does nothing, and answers `Shut` behind a fault of the disk, and the same `NoBlocks` behind want of blocks.
    ///
    /// A record takes at most 1,556 writes and syncs.
    pub fn snap<S: Supplier, P: Policy>(
        &mut self,
        entity: Entity,
        gate: &Gate<S, P>,
    ) -> Result<bool, Stop>
        requires keeps { P.keeps gate.now.policy }
        ensures was_stopped { IfSome self.old.stop (λ why. (result ≡ Err (told_again why)) × (self.new ≡ self.old)) }
        ensures ends { self.old.stop ≡ None → Tells result self.new.stop }
        ensures made { self.old.stop ≡ None → Snaps (P.wish gate.now.policy) entity self.old.parts true
            → OnOk result ((result ≡ Ok true) × HasRecorded D.Disk entity self.old.parts self.new.parts) }
        ensures none { self.old.stop ≡ None → Snaps (P.wish gate.now.policy) entity self.old.parts false → (result ≡ Ok false) × (self.new ≡ self.old) }
        ensures fails { self.old.stop ≡ None → IfErr result (FailsByWrite (HasTried D.Disk entity self.old.parts self.new.parts)) }
        ensures no_blocks { (n : NoBlocks) → self.old.stop ≡ None
            → IsErrOf result (Stop.NoBlocks n) ↔ IsSnapShort D.Disk (P.wish gate.now.policy) entity self.old.parts n }
        ensures untouched { (n : NoBlocks) → IsErrOf result (Stop.NoBlocks n) → self.new.parts ≡ self.old.parts }
        ensures run { D.tells → (b : Beginning) → b.policy ≡ P.wish gate.now.policy → Lives D.Disk b self.old
            → Lives D.Disk b self.new }
        ensures notes { D.tells → (b : Beginning) → b.policy ≡ P.wish gate.now.policy → Lives D.Disk b self.old → self.old.stop ≡ None
            → NotesAlong D.Disk b (wished_snap b.policy (run_of b self.old.parts.noted.entries) entity) self.old self.new }
        ensures tries { TriesByAnswer result self.old.parts.noted.entries self.new.parts.noted.entries }
        ensures clean { (s : Supply) → StaysClean D.Disk s self.old → StaysClean D.Disk s self.new }
        ensures counts { CommitCounts D.Disk self.old.parts.store self.new.parts.store }
    {
        if let Some(why) = self.stopped {
            return Err(Stop::told_again(why));
        }
        let made = snap_one(&mut self.core, entity, gate);
        self.stopped = made.err();
        told_of(made)
    }

    /// The births of a script that fits the atlas, in the order of its tables, and behind the last the Stable of the atlas: a record of
    /// each entity that has changed since its newest one. Where each name of the script is in the atlas already, nothing is done. A kernel
    /// that a fault meets stops.
    ///
    /// `NoBlocks` comes exactly where fewer blocks are free than all those records need together, behind all births, with both numbers,
    /// before the first write. `WriteFault` comes only where the disk's count of faults rose. The births are noted in either case; where a
    /// write failed, with the Snaps of the records that were made. A kernel that has stopped does nothing, and answers `Shut` behind a
    /// fault of the disk, and the same `NoBlocks` behind want of blocks.
    ///
    /// There are at most 63 births: all of them cost one pass over the script's tables, and each a pass over the names of the atlas. They
    /// write nothing and take no memory. The Stable takes a record of each changed entity.
    pub fn births(&mut self, script: &Script) -> Result<(), Stop>
        requires allowed { IsScript (tables_of script.now) }
        requires fits { Fits (atlas_state_in self.old.parts.cells) (tables_of script.now) }
        requires first { self.old.parts.noted.entries ≡ [] }
        ensures was_stopped { IfSome self.old.stop (λ why. (result ≡ Err (told_again why)) × (self.new ≡ self.old)) }
        ensures ends { self.old.stop ≡ None → Tells result self.new.stop }
        ensures made { self.old.stop ≡ None → OnOk result (HasOpened (tables_of script.now) self.old.parts self.new.parts) }
        ensures no_blocks { self.old.stop ≡ None → IsShortBehind (tables_of script.now) (λ n. IsErrOf result (Stop.NoBlocks n)) self.old.parts self.new.parts }
        ensures fails { self.old.stop ≡ None → IfErr result (FailsByWrite (Rose (D.faults self.old.parts.store.disk) (D.faults self.new.parts.store.disk))) }
        ensures run { D.tells → (b : Beginning) → b.script ≡ tables_of script.now
            → Lives D.Disk (with_script b (empty_script b.script.steps)) self.old
            → Lives D.Disk b self.new }
        ensures notes { D.tells → (b : Beginning) → b.script ≡ tables_of script.now
            → Lives D.Disk (with_script b (empty_script b.script.steps)) self.old → self.old.stop ≡ None
            → NotesAlong D.Disk b (opening b.supply b.script b.state) self.old self.new }
        ensures tries { TriesByAnswer result self.old.parts.noted.entries self.new.parts.noted.entries }
        ensures clean { (s : Supply) → StaysClean D.Disk s self.old → StaysClean D.Disk s self.new }
        ensures counts { CountsWithin D.Disk (64 * 1556) self.old.parts.store self.new.parts.store }
    {
        if let Some(cause) = self.stopped {
            return Err(Stop::told_again(cause));
        }
        let opened = open_core(&mut self.core, script);
        self.stopped = opened.err();
        told_of(opened)
    }

    /// One look at the locus with this number: its step, and behind it the Stable that it owes, or a Snap of each entity that it wrote
    /// whose wish is open and of which fewer than four kept records are. It answers the step's entry. A kernel that a fault meets stops.
    ///
    /// `Idle` comes exactly where the locus can't step: it isn't born or no locus, it is halted or stopped, or it has no step left, in this
    /// order; then nothing is changed. `NoBlocks` comes where the step's look evicts a changed page that needs a block and none is free, with
    /// need 1 and free 0; and else only behind the step, where fewer blocks are free than all records of the Stable that it owes need together, or
    /// than the record of one that it wrote needs, with both numbers. In a run it comes only where the image has fewer than are enough for the
    /// state, and the need is at most all pages and eight for each born entity. `ReadFault` and `WriteFault` come only where the disk's count of faults rose over the step, or over what came behind it. Where the step itself
    /// fails nothing is noted of it; where a record behind it fails the step is noted, with the Snaps that were made. A kernel that has
    /// stopped does nothing, whatever the locus, and answers `Shut` behind a fault of the disk, and the same `NoBlocks` behind want of blocks.
    ///
    /// A step begins at most one write, and what comes behind it a record of each of the 64 entities, of at most 1,556 writes and syncs each.
    pub fn step<S: Supplier, P: Policy>(
        &mut self,
        me: Entity,
        gate: &Gate<S, P>,
    ) -> Result<Entry, Stop>
        requires keeps { S.keeps gate.now.supply }
        requires wishes { P.keeps gate.now.policy }
        requires clean { StaysClean D.Disk (S.word gate.now.supply) self.old }
        ensures was_stopped { IfSome self.old.stop (λ why. (result ≡ Err (told_again why)) × (self.new ≡ self.old)) }
        ensures ends { self.old.stop ≡ None → Tells result self.new.stop }
        ensures idle { (s : Supply) (words : ℕ → List ℕ) (why : AnIdle) → self.old.stop ≡ None → (idle_at s words me self.old.parts.cells ≡ Some why) ↔ (result ≡ Err (Stop.Idle why)) }
        ensures still { (why : AnIdle) → result ≡ Err (Stop.Idle why) → self.new ≡ self.old }
        ensures made { IfOk result (LooksOnce D.Disk me self.old.parts self.new.parts) }
        ensures stopped { self.old.stop ≡ None → StopsWhere D.Disk (P.wish gate.now.policy) me self.old.parts self.new.parts self.new.stop }
        ensures fails { self.old.stop ≡ None → IfErr result (FailsByDisk (Rose (D.faults self.old.parts.store.disk) (D.faults self.new.parts.store.disk))) }
        ensures run { D.tells → (b : Beginning) → b.supply ≡ S.word gate.now.supply → b.policy ≡ P.wish gate.now.policy
            → Lives D.Disk b self.old → Lives D.Disk b self.new }
        ensures notes { D.tells → (b : Beginning) → b.supply ≡ S.word gate.now.supply → b.policy ≡ P.wish gate.now.policy
            → Lives D.Disk b self.old → self.old.stop ≡ None
            → NotesAlong D.Disk b (look b.supply b.policy b.script (run_of b self.old.parts.noted.entries) me) self.old self.new }
        ensures tries { TriesByAnswer result self.old.parts.noted.entries self.new.parts.noted.entries }
        ensures clean { StaysClean D.Disk (S.word gate.now.supply) self.new }
        ensures counts { CountsWithin D.Disk (1 + 64 * 1556) self.old.parts.store self.new.parts.store }
    {
        if let Some(stop) = self.stopped {
            return Err(Stop::told_again(stop));
        }
        let looked = look_core(&mut self.core, me, gate);
        self.stopped = why_stopped(&looked);
        answered(&looked)
    }
}
