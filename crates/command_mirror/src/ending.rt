//! What a mirrored run puts, and how it ends.
ghost use Rattle.std.specs.Prelude.{◌≡◌, ◌≤◌, ◌++◌, [], OnErr};
ghost use Rattle.edge_disk.specs.Counts.{Rose};
ghost use Rattle.edge_streams.specs.Streams.{Puts};
ghost use Rattle.command_open.specs.table_births.Births.{atlas_state_in};
ghost use Rattle.command_outcomes.specs.Ends.{Gains};
ghost use Rattle.command_outcomes.specs.Seen.{seen_sink};
ghost use Rattle.command_mirror.specs.Lines.{counts_line, mirror_fault_line};
ghost use Rattle.command_mirror.specs.Playing.{IsPutMirrored};
ghost use Rattle.command_mirror.specs.Statuses.{mirror_status};
ghost use Rattle.script_types.specs.model_kernel.Output.{output_of};

use crate::faults::{MirrorFault, put_mirror_fault};
use crate::statuses::{MirrorOutcome, MirrorStatus, MirrorWhy, status_of};
use arrayvec::ArrayString;
use base_types::Entry;
use cell_states::Cell;
use command_run::{Lines, put_lines};
use edge_streams::{Sink, SinkFault};
use itoa::Buffer;
use std::alloc::Global;

/// A length that the last line doesn't exceed.
const LAST_LINE: usize = 64;

// The line that tells how many of the commits the standby took.
fn counts_line(kept: u64, made: u64) -> ArrayString<LAST_LINE>
    ensures { result.bytes ≡ counts_line kept made }
{
    let mut digits = Buffer::new();
    let mut line = ArrayString::new();
    line.push_str("mirror ");
    line.push_str(digits.format(kept));
    line.push_str(" of ");
    line.push_str(digits.format(made));
    line.push_str("\n");
    line
}

// The lines of a run, and behind them that of the counts.
#[tactic(auto, using(edge_streams::proofs::Streams::puts))]
fn put_whole<W: Sink>(
    sink: &mut W,
    cells: &[Cell],
    history: &[Entry],
    kept: u64,
    made: u64,
) -> Result<(), SinkFault>
    ensures bytes { Puts (W.held sink.old) (W.held sink.new) result (output_of (atlas_state_in cells.now) history.now ++ counts_line kept made) }
    ensures count { W.faults sink.old ≤ W.faults sink.new }
    ensures cause { OnErr result (Rose (W.faults sink.old) (W.faults sink.new)) }
{
    put_lines(sink, Lines::Printed, cells, history)?;
    sink.put(counts_line(kept, made).as_str().as_bytes())
}

// The lines of a run that was stopped, and behind them that of the fault.
#[tactic(auto, using(edge_streams::proofs::Streams::puts))]
fn put_cut_short<W: Sink>(
    sink: &mut W,
    cells: &[Cell],
    history: &[Entry],
    fault: &MirrorFault,
) -> Result<(), SinkFault>
    ensures bytes { Puts (W.held sink.old) (W.held sink.new) result (output_of (atlas_state_in cells.now) history.now ++ mirror_fault_line fault.now) }
    ensures count { W.faults sink.old ≤ W.faults sink.new }
    ensures cause { OnErr result (Rose (W.faults sink.old) (W.faults sink.new)) }
{
    put_lines(sink, Lines::Printed, cells, history)?;
    put_mirror_fault(sink, fault)
}

/// Puts the lines of a run, and tells how it ended. A sink that fails behind a run that was stopped changes no status.
pub(crate) fn put_mirrored<W: Sink>(
    sink: &mut W,
    cells: &[Cell],
    history: &[Entry],
    stopped: Option<MirrorFault>,
    kept: u64,
    made: u64,
) -> MirrorStatus
    ensures put { IsPutMirrored stopped (seen_sink W.held W.faults sink.old sink.new) (output_of (atlas_state_in cells.now) history.now) (counts_line kept made) result }
{
    match stopped {
        None => {
            if put_whole(sink, cells, history, kept, made).is_ok() {
                MirrorStatus::Done
            } else {
                MirrorStatus::First(MirrorWhy::SinkFault)
            }
        }
        Some(fault) => {
            let _ = put_cut_short(sink, cells, history, &fault);
            status_of(fault)
        }
    }
}

/// Ends a call that a fault stopped before it ran anything: the fault's line is put. A sink that fails at it changes no status.
pub(crate) fn end_unrun<W: Sink, D, E>(
    alloc: Global,
    sink: &mut W,
    fault: MirrorFault,
    first: D,
    second: E,
) -> MirrorOutcome<D, E>
    ensures status { result.status ≡ mirror_status fault }
    ensures empty { (result.history.items ≡ []) × (result.marks.items ≡ []) × (result.kept ≡ 0) × (result.made ≡ 0) }
    ensures output { Gains (seen_sink W.held W.faults sink.old sink.new) (mirror_fault_line fault) }
    ensures disks { (result.first ≡ first) × (result.second ≡ second) }
{
    let _ = put_mirror_fault(sink, &fault);
    MirrorOutcome {
        status: status_of(fault),
        history: Vec::new(alloc),
        marks: Vec::new(alloc),
        kept: 0,
        made: 0,
        first,
        second,
    }
}
