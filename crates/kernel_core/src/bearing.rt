// The births of a script, and the Stable behind them.
ghost use Rattle.std.specs.Prelude.{◌≡◌, ◌==◌, ◌*◌, ◌<◌, ◌≤◌, true, false, IfErr, IsErrOf, OnOk, length};
ghost use Rattle.script_types.specs.model_kernel.State.{Supply};
ghost use Rattle.kernel_core_facts.specs.model_births.Fitting.{Fits};
ghost use Rattle.script_types.specs.Rules.{IsScript};
ghost use Rattle.script_types.specs.Scripts.{tables_of};
ghost use Rattle.kernel_core_facts.specs.table_laws.Steps.{IsInOrder};
ghost use Rattle.kernel_core_facts.specs.table_laws.Tables.{AreClean, AreFewWrites};
ghost use Rattle.kernel_core_facts.specs.kernel_record_facts.Cells.{words_on};
ghost use Rattle.kernel_core_facts.specs.table_births.Births.{AreUnderWay, NoBirthLeft, atlas_state_in};
ghost use Rattle.kernel_core_facts.specs.kernel_commit_facts.Pieces.{CountsWithin};
ghost use Rattle.kernel_core_facts.specs.kernel_commit_facts.Stabilising.{AreShort};
ghost use Rattle.kernel_core_facts.specs.kernel_commit_facts.Steady.{IsSteady};
ghost use Rattle.kernel_core_facts.specs.kernel_commits.Stops.{LeavesStopped};
ghost use Rattle.kernel_core_facts.specs.kernel_commits.Telling.{CommitsNote};
ghost use Rattle.kernel_core_facts.specs.Bearing.{HasBorne, HasBorneAll, HasOpened, IsInBirths, IsShortBehind, OpensRun, RunsInBirths};
ghost use Rattle.kernel_core_facts.specs.kernel_invariant.Beginnings.{Beginning};

use base_types::Entity;
use edge_disk::Disk;
use kernel_core_facts::{Cell, Core, Notes, Progress, Stopped, bear_next, settle};
use script_types::Script;

// At most 63 entities are born, so one of so many searches finds none left.
const MOST_SEARCHES: usize = 64;

/// The next birth of a script among the cells, with its entry. False where each name of the script is in the atlas: then nothing is
/// changed.
fn bear_noted(
    cells: &mut [Cell],
    notes: &mut Notes,
    script: &Script,
    progress: &mut Progress,
) -> bool
    requires order { IsInOrder cells.old }
    requires few { AreFewWrites cells.old }
    requires room { length notes.old.entries < notes.old.room }
    requires allowed { IsScript (tables_of script.now) }
    requires under_way { AreUnderWay (tables_of script.now) progress.old cells.old }
    ensures made { result ≡ true → HasBorne (tables_of script.now) cells.old cells.new notes.old notes.new }
    ensures none { result ≡ false → NoBirthLeft (tables_of script.now) cells.old }
    ensures still { result ≡ false → (cells.new ≡ cells.old) × (notes.new ≡ notes.old) }
    ensures under_way { AreUnderWay (tables_of script.now) progress.new cells.new }
{
    match bear_next(cells, script, progress) {
        Some(entry) => {
            notes.push_entry(&entry);
            true
        }
        None => false,
    }
}

/// The next birth of a script. False where each name of the script is in the atlas: then nothing is changed.
fn bear_one<D: Disk>(core: &mut Core<D>, script: &Script, progress: &mut Progress) -> bool
    requires order { IsInOrder core.old.cells }
    requires few { AreFewWrites core.old.cells }
    requires room { length core.old.noted.entries < core.old.noted.room }
    requires allowed { IsScript (tables_of script.now) }
    requires under_way { AreUnderWay (tables_of script.now) progress.old core.old.cells }
    ensures made { result ≡ true → HasBorne (tables_of script.now) core.old.cells core.new.cells core.old.noted core.new.noted }
    ensures none { result ≡ false → NoBirthLeft (tables_of script.now) core.old.cells }
    ensures still { result ≡ false → core.new ≡ core.old }
    ensures under_way { AreUnderWay (tables_of script.now) progress.new core.new.cells }
    ensures store { core.new.store ≡ core.old.store }
{
    bear_noted(&mut core.cells, &mut core.notes, script, progress)
}

/// All births of a script that are left, one after another.
fn bear_all<D: Disk>(core: &mut Core<D>, script: &Script)
    requires in_births { IsInBirths D.Disk core.old }
    requires allowed { IsScript (tables_of script.now) }
    requires fits { Fits (atlas_state_in core.old.cells) (tables_of script.now) }
    ensures in_births { IsInBirths D.Disk core.new }
    ensures all { HasBorneAll (tables_of script.now) core.old core.new }
    ensures few { length core.new.noted.entries ≤ 63 }
    ensures run { D.tells → (b : Beginning) → b.script ≡ tables_of script.now → RunsInBirths D.Disk b core.old
        → RunsInBirths D.Disk b core.new }
{
    let mut progress = Progress::new();
    for _ in 0..MOST_SEARCHES {
        if !bear_one(core, script, &mut progress) {
            return;
        }
    }
}

/// Whether no entry is noted.
fn is_new<D: Disk>(core: &Core<D>) -> bool
    ensures { result ≡ (length core.now.noted.entries == 0) }
{
    core.notes.entries().len() == 0
}

/// The births of a script that are left, and behind the last the Stable of the atlas, if anything is noted.
pub(crate) fn open_core<D: Disk>(core: &mut Core<D>, script: &Script) -> Result<(), Stopped>
    requires in_births { IsInBirths D.Disk core.old }
    requires allowed { IsScript (tables_of script.now) }
    requires fits { Fits (atlas_state_in core.old.cells) (tables_of script.now) }
    ensures steady { OnOk result (IsSteady D.Disk core.new) }
    ensures made { OnOk result (HasOpened (tables_of script.now) core.old core.new) }
    ensures no_blocks { IsShortBehind (tables_of script.now) (λ n. IsErrOf result (Stopped.NoBlocks n)) core.old core.new }
    ensures stopped { IfErr result (LeavesStopped D.faults (AreShort core.new) core.old core.new) }
    ensures notes { CommitsNote result core.old.noted.entries core.new.noted.entries }
    ensures run { D.tells → (b : Beginning) → b.script ≡ tables_of script.now → RunsInBirths D.Disk b core.old
        → OpensRun D.Disk b result core.new }
    ensures clean { D.tells → (s : Supply) → AreClean s (words_on (D.reading core.old.store.disk)) core.old.cells
        → OnOk result (AreClean s (words_on (D.reading core.new.store.disk)) core.new.cells) }
    ensures counts { CountsWithin D.Disk (64 * 1556) core.old.store core.new.store }
{
    bear_all(core, script);
    if is_new(core) {
        return Ok(());
    }
    settle(core, Entity::ATLAS)
}
