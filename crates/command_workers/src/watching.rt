// The run of a script by workers that was read, on a disk that is watched from the call's start on.
ghost use Rattle.std.specs.Prelude.{◌≡◌, ◌≤◌, ◌<◌, ◌^◌, ℕ, Bool};
ghost use Rattle.base_managers.specs.Managing.{AreScriptManagers, managers_of};
ghost use Rattle.script_types.specs.Rules.{IsScript};
ghost use Rattle.script_types.specs.Scripts.{tables_of};
ghost use Rattle.command_outcomes.specs.Seen.{gave, seen_disk, seen_sink};
ghost use Rattle.command_outcomes.specs.Statuses.{ending};
ghost use Rattle.command_open.specs.command_promises.Booked.{over};
ghost use Rattle.command_run.specs.Tellings.{lines_of};
ghost use Rattle.command_open.specs.command_promises.Manners.{on_threads};
ghost use Rattle.command_open.specs.command_promises.OfScript.{ScriptLeaves};
ghost use Rattle.command_open.specs.command_promises.Playing.{IsHandedIn};

use crate::playing::run_opened;
use act_managers::book_over;
use command_open::{Unopened, open_for};
use command_outcomes::{Outcome, end_with};
use command_run::{Lines, unwatched};
use edge_disk::Disk;
use edge_managers::{Answers, Gate};
use edge_streams::Sink;
use edge_watched::{Handed, WatchedDisk};
use script_reading::ManagedScript;
use std::alloc::Global;
use std::sync::Wait;
use std::thread::Threads;
use thread_runs::StepGate;

/// Opens the image for a script that was read, runs it by so many workers, by its managers over the handed-in ones, and puts these lines. `N` has the
/// answers of the handed-in ones, and how the disk is handed in.
pub(crate) fn run_read<
    W: Sink,
    D: Disk + Send,
    S: Fn(u64, u32, u16) -> u64 + Sync,
    P: Fn(u32, u64) -> bool + Sync,
    R: Threads + Wait + Sync,
    G: StepGate + Sync,
    N: Answers + Handed + Send + Sync,
>(
    rt: &R,
    alloc: Global,
    read: &ManagedScript,
    workers: u8,
    steps: &G,
    lines: Lines,
    sink: &mut W,
    disk: D,
    supply: &S,
    policy: &P,
) -> Outcome<D>
    requires start { IsHandedIn D.Disk N.start disk }
    requires supplies { (t p a : ℕ) → t < 2 ^ 64 → p < 256 → a < 128 → S.pre supply.now t p a }
    requires supplied { (t p a r : ℕ) → t < 2 ^ 64 → p < 256 → a < 128 → S.post supply.now t p a r → r ≡ N.word t p a }
    requires wishes { (e n : ℕ) → e < 2 ^ 32 → n < 2 ^ 64 → P.pre policy.now e n }
    requires wished { (e n : ℕ) (r : Bool) → e < 2 ^ 32 → n < 2 ^ 64 → P.post policy.now e n r → r ≡ N.wish e n }
    requires allowed { IsScript (tables_of read.now.script) }
    requires frames { (1 ≤ read.now.script.frames) × (read.now.script.frames ≤ 256) }
    requires managers { AreScriptManagers (managers_of read.now.managers) }
    requires workers { (1 ≤ workers) × (workers ≤ 16) }
    ensures leaves { ScriptLeaves (on_threads (lines_of lines)) (over (managers_of read.now.managers) (record { supply = N.word; policy = N.wish })) (tables_of read.now.script) (seen_sink W.held W.faults sink.old sink.new)
        (seen_disk D.Disk disk result.disk) (gave result) (ending result.status) }
    ensures count { D.block_count result.disk ≡ D.block_count disk }
{
    let book = book_over::<S, P, N>(&read.managers, supply, policy);
    let gate = Gate::new(&book, &book);
    let watched: WatchedDisk<D, N> = WatchedDisk::new(disk);
    match open_for(alloc, &read.script, watched) {
        Ok(kernel) => unwatched(run_opened(
            rt,
            alloc,
            kernel,
            &read.script,
            workers,
            steps,
            lines,
            sink,
            gate,
        )),
        Err(Unopened { fault, disk }) => end_with(alloc, sink, disk.into_disk(), fault),
    }
}
