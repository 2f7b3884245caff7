// A source, read to a script and a trace.
ghost use Rattle.std.specs.Prelude.{◌≡◌, ◌≤◌, ◌<◌, IfErr, IfOk, IfSome, OnOk, Some, codes, length, true, vec_len};
ghost use Rattle.std.specs.Io.KnownBytes.{Consumes, IsAtEnd};
ghost use Rattle.base_managers.specs.Managing.{AreScriptManagers, managers_of};
ghost use Rattle.script_types.specs.Rules.{IsScript};
ghost use Rattle.script_types.specs.Scripts.{tables_of};
ghost use Rattle.command_promises.specs.script_meaning.Reading.{IsBlamed, IsFaultOf};
ghost use Rattle.command_outcomes.specs.Seen.{seen_source};
ghost use Rattle.command_source.specs.Sources.{StopsInTime};
ghost use Rattle.command_promises.specs.SourceParts.{rule_from};
ghost use Rattle.command_promises.specs.Sources.{MeansTraced, StopsTraced, most_bytes, traced_meaning};
ghost use Rattle.command_check_trace.specs.Sources.{traced_of};

use crate::parting::{behind_rule, rule_place};
use command_outcomes::Fault;
use command_source::fault_of_stop;
use edge_streams::{Source, read_all};
use script_reading::{ManagedScript, read_script};
use script_types::{Refusal, ScriptFault, Why};
use std::alloc::Global;

/// How many bytes a script and its trace may have, with the line between them.
const MOST_BYTES: usize = 67_108_864;

/// A script with the managers that it brings, and the trace behind it.
#[derive(Drop)]
pub(crate) struct Traced<'a> {
    pub(crate) read: ManagedScript,
    pub(crate) trace: &'a [u8],
}

/// The fault of a source without the line `---`.
fn no_rule(alloc: Global) -> ScriptFault
    ensures { IsBlamed Why.Missing (codes "---") result }
{
    match Refusal::new(alloc, Why::Missing, "---") {
        Ok(refusal) => ScriptFault::Refused(refusal),
        Err(_) => ScriptFault::Memory,
    }
}

/// All bytes of a source, of which there may be so many.
pub(crate) fn read_bytes<R: Source>(alloc: Global, source: &mut R) -> Result<Vec<u8>, Fault>
    ensures whole { IfOk result (λ bytes. IfSome (R.left source.old) (λ left. bytes.items ≡ left)) }
    ensures taken { IfOk result (λ bytes. Consumes (R.left source.old) (R.left source.new) bytes.items) }
    ensures end { OnOk result (IfSome (R.left source.old) (λ _. IsAtEnd (R.left source.new))) }
    ensures short { IfOk result (λ bytes. vec_len bytes ≤ most_bytes) }
    ensures fault { IfErr result (StopsTraced (seen_source R.left R.faults source.old source.new)) }
    ensures stops { IfErr result (StopsInTime most_bytes (seen_source R.left R.faults source.old source.new)) }
    ensures count { R.faults source.old ≤ R.faults source.new }
{
    match read_all(alloc, source, MOST_BYTES) {
        Ok(bytes) => Ok(bytes),
        Err(stop) => Err(fault_of_stop(alloc, stop)),
    }
}

/// The script before the line that begins here with its managers, and the trace behind it.
fn read_parts(alloc: Global, bytes: &[u8], at: usize) -> Result<Traced<'_>, ScriptFault>
    requires short { length bytes.now ≤ most_bytes }
    requires place { rule_from true bytes.now 0 ≡ Some at }
    requires within { at < length bytes.now }
    ensures means { IfOk result (λ t. MeansTraced bytes.entry.now (traced_of t)) }
    ensures rules { IfOk result (λ t. IsScript (tables_of t.read.script)) }
    ensures managers { IfOk result (λ t. AreScriptManagers (managers_of t.read.managers)) }
    ensures fault { IfErr result (IsFaultOf (traced_meaning bytes.entry.now)) }
{
    match read_script(alloc, &bytes[..at]) {
        Ok(read) => Ok(Traced {
            read,
            trace: behind_rule(bytes, at),
        }),
        Err(fault) => Err(fault),
    }
}

/// The script with its managers and the trace that the bytes stand for.
pub(crate) fn read_traced(alloc: Global, bytes: &[u8]) -> Result<Traced<'_>, ScriptFault>
    requires short { length bytes.now ≤ most_bytes }
    ensures means { IfOk result (λ t. MeansTraced bytes.entry.now (traced_of t)) }
    ensures rules { IfOk result (λ t. IsScript (tables_of t.read.script)) }
    ensures managers { IfOk result (λ t. AreScriptManagers (managers_of t.read.managers)) }
    ensures fault { IfErr result (IsFaultOf (traced_meaning bytes.entry.now)) }
{
    match rule_place(bytes) {
        Some(at) => read_parts(alloc, bytes, at),
        None => Err(no_rule(alloc)),
    }
}
