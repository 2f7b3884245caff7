//! Reading a source to a script that may run.
ghost use Rattle.std.specs.Prelude.{◌≡◌, ◌≤◌, IfOk, IfErr, IfSome, codes, string_bytes};
ghost use Rattle.base_managers.specs.Managing.{AreScriptManagers, managers_of};
ghost use Rattle.script_types.specs.Rules.{IsScript};
ghost use Rattle.script_types.specs.Scripts.{tables_of};
ghost use Rattle.command_outcomes.specs.Seen.{seen_source};
ghost use Rattle.command_source.specs.Sources.{HasRead, IsFaultOfStop, MeansScript, StopsInTime, StopsSource};

use base_types::MOST_SCRIPT_BYTES;
use command_outcomes::Fault;
use edge_streams::{ReadStop, Source, read_all};
use script_reading::{ManagedScript, read_script};
use script_types::{Refusal, Why};
use std::alloc::{AllocError, Global};

// The refusal of a source that is too long.
fn too_long(alloc: Global) -> Result<Refusal, AllocError>
    ensures why { IfOk result (λ refusal. refusal.why ≡ Why.Long) }
    ensures key { IfOk result (λ refusal. string_bytes refusal.key ≡ codes "-") }
{
    Refusal::new(alloc, Why::Long, "-")
}

/// The fault of a source whose reading stopped.
pub fn fault_of_stop(alloc: Global, stop: ReadStop) -> Fault
    ensures { IsFaultOfStop stop result }
{
    match stop {
        ReadStop::Source(_) => Fault::Source,
        ReadStop::Memory => Fault::Memory,
        ReadStop::Long => match too_long(alloc) {
            Ok(refusal) => Fault::Script(refusal),
            Err(_) => Fault::Memory,
        },
    }
}

/// Reads a source to its end, and the script that it stands for with the managers that it brings. A source of more than 1,048,576 bytes is
/// refused as too long, and reading stops there.
pub fn read_source<R: Source>(alloc: Global, source: &mut R) -> Result<ManagedScript, Fault>
    ensures read { IfOk result (λ read. HasRead (seen_source R.left R.faults source.old source.new) (tables_of read.script) (managers_of read.managers)) }
    ensures meaning { IfOk result (λ read. IfSome (R.left source.old) (λ bytes. MeansScript bytes (tables_of read.script) read.script.frames (managers_of read.managers))) }
    ensures rules { IfOk result (λ read. IsScript (tables_of read.script)) }
    ensures frames { IfOk result (λ read. (1 ≤ read.script.frames) × (read.script.frames ≤ 256)) }
    ensures managers { IfOk result (λ read. AreScriptManagers (managers_of read.managers)) }
    ensures fault { IfErr result (StopsSource (seen_source R.left R.faults source.old source.new)) }
    ensures stops { IfErr result (StopsInTime MOST_SCRIPT_BYTES (seen_source R.left R.faults source.old source.new)) }
    ensures count { R.faults source.old ≤ R.faults source.new }
{
    let bytes = match read_all(alloc, source, MOST_SCRIPT_BYTES) {
        Ok(bytes) => bytes,
        Err(stop) => return Err(fault_of_stop(alloc, stop)),
    };
    let read = read_script(alloc, &bytes)?;
    Ok(read)
}
