//! The call `mirror`.
ghost use Rattle.std.specs.Prelude.{◌≡◌, ◌≤◌, ◌<◌, ◌^◌, ℕ, Bool, IfNone, IfSome};
ghost use Rattle.edge_disk.specs.Counts.{Rose};
ghost use Rattle.edge_disk.specs.declared.disk.NoBlocks.{NoBlocks};
ghost use Rattle.edge_watched.specs.Watching.{HasGoneOn};
ghost use Rattle.base_managers.specs.Managing.{AreScriptManagers, managers_of};
ghost use Rattle.command_open.specs.command_promises.Booked.{none_brought, over};
ghost use Rattle.command_open.specs.command_promises.Openings.{Managers};
ghost use Rattle.command_open.specs.command_promises.Playing.{IsHandedIn};
ghost use Rattle.command_outcomes.specs.Seen.{seen_disk, seen_sink, seen_source};
ghost use Rattle.command_mirror.specs.Gave.{gave_by};
ghost use Rattle.command_mirror.specs.Leaving.{CanMirror, IsManagedFault, IsMirrorComplete, MirrorLeaves, ScriptMirrors};
ghost use Rattle.command_mirror.specs.Refusing.{IsUnknownKey};
ghost use Rattle.script_types.specs.Rules.{IsScript};
ghost use Rattle.script_types.specs.Scripts.{tables_of};

use crate::ending::end_unrun;
use crate::faults::MirrorFault;
use crate::playing::mirror_opened;
use crate::statuses::{MirrorOutcome, MirrorStatus, MirrorWhy};
use act_managers::book_over;
use base_managers::ScriptManagers;
use command_open::{Unopened, open_for};
use command_outcomes::Fault;
use command_source::read_source;
use edge_disk::Disk;
use edge_managers::{Answers, Gate};
use edge_streams::{Sink, Source};
use edge_watched::{Handed, WatchedDisk};
use node_mirror::Losing;
use script_reading::ManagedScript;
use script_types::{Refusal, Why};
use std::alloc::Global;
use std::marker::Brand;

// The outcome of a call on a first disk that was watched, with the disk in it.
fn unwatched<D: Disk, E: Disk, N: Handed>(
    outcome: MirrorOutcome<WatchedDisk<D, N>, E>,
) -> MirrorOutcome<D, E>
    ensures gave { gave_by result ≡ gave_by outcome }
    ensures counts { (result.kept ≡ outcome.kept) × (result.made ≡ outcome.made) }
    ensures status { result.status ≡ outcome.status }
    ensures disks { (result.first ≡ outcome.first) × (result.second ≡ outcome.second) }
    ensures gone_on { HasGoneOn D.Disk N.start result.first }
{
    let MirrorOutcome {
        status,
        history,
        marks,
        kept,
        made,
        first,
        second,
    } = outcome;
    MirrorOutcome {
        status,
        history,
        marks,
        kept,
        made,
        first: first.into_disk(),
        second,
    }
}

// The refusal of a key that is not known here.
fn refused(alloc: Global, key: &str) -> Fault
    ensures { IsUnknownKey key.now result }
{
    match Refusal::new(alloc, Why::Unknown, key) {
        Ok(refusal) => Fault::Script(refusal),
        Err(_) => Fault::Memory,
    }
}

// Why a script that brings managers is refused, where it brings some: they answer in a run alone.
fn managed(alloc: Global, managers: &ScriptManagers) -> Option<Fault>
    ensures some { IfSome result (IsManagedFault (managers_of managers.now)) }
    ensures none { IfNone result (managers_of managers.now ≡ none_brought) }
{
    if !managers.supply.is_empty() {
        return Some(refused(alloc, "supply"));
    }
    if !managers.policy.is_empty() {
        return Some(refused(alloc, "policy"));
    }
    None
}

// Opens the first image for a script that was read, and runs it with a standby behind it. `N` has the answers of the handed-in managers, and how the first disk is
// handed in.
fn mirror_read<
    W: Sink,
    D: Disk,
    E: Disk,
    S: Fn(u64, u32, u16) -> u64,
    P: Fn(u32, u64) -> bool,
    N: Answers + Handed,
>(
    alloc: Global,
    losing: Losing,
    read: &ManagedScript,
    sink: &mut W,
    first: D,
    second: E,
    supply: &S,
    policy: &P,
) -> MirrorOutcome<D, E>
    requires start { IsHandedIn D.Disk N.start first }
    requires supplies { (t p a : ℕ) → t < 2 ^ 64 → p < 256 → a < 128 → S.pre supply.now t p a }
    requires supplied { (t p a r : ℕ) → t < 2 ^ 64 → p < 256 → a < 128 → S.post supply.now t p a r → r ≡ N.word t p a }
    requires wishes { (e n : ℕ) → e < 2 ^ 32 → n < 2 ^ 64 → P.pre policy.now e n }
    requires wished { (e n : ℕ) (r : Bool) → e < 2 ^ 32 → n < 2 ^ 64 → P.post policy.now e n r → r ≡ N.wish e n }
    requires allowed { IsScript (tables_of read.now.script) }
    requires frames { (1 ≤ read.now.script.frames) × (read.now.script.frames ≤ 256) }
    requires managers { AreScriptManagers (managers_of read.now.managers) }
    ensures leaves { ScriptMirrors (over (managers_of read.now.managers) (record { supply = N.word; policy = N.wish })) (tables_of read.now.script)
        (seen_sink W.held W.faults sink.old sink.new) (seen_disk D.Disk first result.first) (seen_disk E.Disk second result.second)
        losing (gave_by result) result.kept result.made result.status }
    ensures count { D.block_count result.first ≡ D.block_count first }
{
    let book = book_over::<S, P, N>(&read.managers, supply, policy);
    let gate = Gate::new(&book, &book);
    let watched: WatchedDisk<D, N> = WatchedDisk::new(first);
    match open_for(alloc, &read.script, watched) {
        Ok(kernel) => unwatched(mirror_opened(
            alloc,
            kernel,
            &read.script,
            sink,
            &gate,
            losing,
            second,
        )),
        Err(Unopened { fault, disk }) => end_unrun(
            alloc,
            sink,
            MirrorFault::First(fault),
            disk.into_disk(),
            second,
        ),
    }
}

/// Runs the script that a source stands for on the first disk, as a run does, while a standby on the second one follows its records over a network that
/// loses `loss` packets and counts in a hundred, as is drawn from the seed (`node_draws`). A script that brings managers is refused.
///
/// The records of the first image are offered first, and the new ones behind the births and behind each step. Behind each step there is one round
/// (`node_rounds`), and behind the run rounds until all is acknowledged, four for each record and a thousand at most. The lines of the run are put, and
/// behind them `mirror K of M`: how many records the standby took, and how many the first node has completed.
///
/// What stops the call first decides how it ends: the source, the script, the first image, the script against it, the second image, the run, the
/// output. Where the run is stopped the lines so far are put, and behind them that of the fault.
///
/// It takes the memory of a run, that of a standby, and that of each shipment until it is acknowledged.
pub fn mirror<
    R: Source,
    W: Sink,
    D: Disk,
    E: Disk,
    S: Fn(u64, u32, u16) -> u64,
    P: Fn(u32, u64) -> bool,
>(
    alloc: Global,
    seed: u64,
    loss: u8,
    source: &mut R,
    sink: &mut W,
    first: D,
    second: E,
    supply: &S,
    policy: &P,
) -> MirrorOutcome<D, E>
    ghost m: { Managers }
    // The managers give one answer for each question, and may be asked each.
    requires supplies { (t p a : ℕ) → t < 2 ^ 64 → p < 256 → a < 128 → S.pre supply.now t p a }
    requires supplied { (t p a r : ℕ) → t < 2 ^ 64 → p < 256 → a < 128 → S.post supply.now t p a r → r ≡ m.supply t p a }
    requires wishes { (e n : ℕ) → e < 2 ^ 32 → n < 2 ^ 64 → P.pre policy.now e n }
    requires wished { (e n : ℕ) (r : Bool) → e < 2 ^ 32 → n < 2 ^ 64 → P.post policy.now e n r → r ≡ m.policy e n }
    ensures leaves { MirrorLeaves m (record {
      source = seen_source R.left R.faults source.old source.new;
      sink = seen_sink W.held W.faults sink.old sink.new;
      disk = seen_disk D.Disk first result.first;
    }) (seen_disk E.Disk second result.second) (record { seed = seed; loss = loss }) (gave_by result) result.kept result.made result.status }
    ensures count { D.block_count result.first ≡ D.block_count first }
    ensures complete { CanMirror m (record {
      source = seen_source R.left R.faults source.old source.new;
      sink = seen_sink W.held W.faults sink.old sink.new;
      disk = seen_disk D.Disk first result.first;
    }) (seen_disk E.Disk second result.second)
        → (Rose (R.faults source.old) (R.faults source.new) → ⊥) → (Rose (D.faults first) (D.faults result.first) → ⊥)
        → (Rose (E.faults second) (E.faults result.second) → ⊥) → (Rose (W.faults sink.old) (W.faults sink.new) → ⊥)
        → ((n : NoBlocks) → result.status ≡ MirrorStatus.First (MirrorWhy.BlocksFull n) → ⊥)
        → ((n : NoBlocks) → result.status ≡ MirrorStatus.Second (MirrorWhy.BlocksFull n) → ⊥) → IsMirrorComplete result.status }
{
    let losing = Losing { seed, loss };
    let read = match read_source(alloc, source) {
        Ok(read) => read,
        Err(fault) => return end_unrun(alloc, sink, MirrorFault::First(fault), first, second),
    };
    match managed(alloc, &read.managers) {
        Some(fault) => end_unrun(alloc, sink, MirrorFault::First(fault), first, second),
        None => mirror_read::<W, D, E, S, P, Brand>(
            alloc, losing, &read, sink, first, second, supply, policy,
        ),
    }
}
