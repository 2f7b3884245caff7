//! The command `drill`.
ghost use Rattle.std.specs.Prelude.{◌≡◌, ◌≤◌, ◌<◌, ◌^◌, ℕ, Bool, IfOk};
ghost use Rattle.edge_disk.specs.Counts.{Rose};
ghost use Rattle.edge_disk.specs.declared.disk.NoBlocks.{NoBlocks};
ghost use Rattle.script_drill.specs.Drill.{drill};
ghost use Rattle.base_managers.specs.Managing.{managers_of};
ghost use Rattle.command_outcomes.specs.Seen.{gave, seen_disk, seen_sink};
ghost use Rattle.command_outcomes.specs.Statuses.{IsComplete, ending};
ghost use Rattle.command_open.specs.command_promises.Openings.{Managers};
ghost use Rattle.script_types.specs.Rules.{IsScript};
ghost use Rattle.script_types.specs.Scripts.{tables_of};
ghost use Rattle.command_open.specs.command_promises.Booked.{none_brought};
ghost use Rattle.command_open.specs.command_promises.Drilling.{CanDrill, DrillLeaves};

use crate::putting::Lines;
use crate::watching::run_read;
use base_managers::ScriptManagers;
use command_outcomes::{Fault, Outcome, Status, end_with};
use edge_disk::Disk;
use edge_streams::Sink;
use script_drill::drill_script;
use script_reading::ManagedScript;
use std::alloc::{AllocError, Global};
use std::marker::Brand;

/// The script of the drill of a number, which brings no managers.
fn drawn(alloc: Global, number: u64) -> Result<ManagedScript, AllocError>
    ensures drill { IfOk result (λ read. tables_of read.script ≡ drill number) }
    ensures rules { IfOk result (λ read. IsScript (tables_of read.script)) }
    ensures frames { IfOk result (λ read. (1 ≤ read.script.frames) × (read.script.frames ≤ 256)) }
    ensures managers { IfOk result (λ read. managers_of read.managers ≡ none_brought) }
{
    Ok(ManagedScript {
        script: drill_script(alloc, number)?,
        managers: ScriptManagers {
            supply: Vec::new(alloc),
            policy: Vec::new(alloc),
        },
    })
}

/// Runs the script of the drill of this number, as `run_script` runs the script of a source, by the handed-in managers alone, and puts the
/// summary of its history in one line. No source is touched. A drill that runs on an image of its own twice puts the same line twice, if
/// the managers are the same.
///
/// It takes memory for the script, and what an opening takes (`open_kernel::open_image`), before anything is run; the run itself takes
/// none. Where it is stopped the summary of what was run so far is put, and behind it the line of the fault.
pub fn run_drill<W: Sink, D: Disk, S: Fn(u64, u32, u16) -> u64, P: Fn(u32, u64) -> bool>(
    alloc: Global,
    number: u64,
    sink: &mut W,
    disk: D,
    supply: &S,
    policy: &P,
) -> Outcome<D>
    ghost m: { Managers }
    // The managers give one answer for each question, and may be asked each.
    requires supplies { (t p a : ℕ) → t < 2 ^ 64 → p < 256 → a < 128 → S.pre supply.now t p a }
    requires supplied { (t p a r : ℕ) → t < 2 ^ 64 → p < 256 → a < 128 → S.post supply.now t p a r → r ≡ m.supply t p a }
    requires wishes { (e n : ℕ) → e < 2 ^ 32 → n < 2 ^ 64 → P.pre policy.now e n }
    requires wished { (e n : ℕ) (r : Bool) → e < 2 ^ 32 → n < 2 ^ 64 → P.post policy.now e n r → r ≡ m.policy e n }
    ensures leaves { DrillLeaves m number (seen_sink W.held W.faults sink.old sink.new)
        (seen_disk D.Disk disk result.disk) (gave result) (ending result.status) }
    ensures count { D.block_count result.disk ≡ D.block_count disk }
    ensures complete { CanDrill m number (seen_disk D.Disk disk result.disk)
        → (Rose (D.faults disk) (D.faults result.disk) → ⊥) → (Rose (W.faults sink.old) (W.faults sink.new) → ⊥)
        → ((n : NoBlocks) → result.status ≡ Status.BlocksFull n → ⊥) → IsComplete result.status }
{
    match drawn(alloc, number) {
        Ok(read) => run_read::<W, D, S, P, Brand>(
            alloc,
            &read,
            Lines::Summary,
            sink,
            disk,
            supply,
            policy,
        ),
        Err(_) => end_with(alloc, sink, disk, Fault::Memory),
    }
}
