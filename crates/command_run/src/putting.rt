//! What a run puts of its history, and the line of what stopped it.
ghost use Rattle.std.specs.Prelude.{◌≡◌, ◌≤◌, ◌++◌, OnErr};
ghost use Rattle.edge_disk.specs.Counts.{Rose};
ghost use Rattle.command_open.specs.table_births.Births.{atlas_state_in};
ghost use Rattle.line_runs.specs.act_calls.Calls.{atlas_state};
ghost use Rattle.edge_streams.specs.Streams.{Puts};
ghost use Rattle.command_outcomes.specs.Faults.{fault_line};
ghost use Rattle.command_outcomes.specs.Seen.{seen_sink};
ghost use Rattle.command_run.specs.Tellings.{lines_of};
ghost use Rattle.command_open.specs.command_promises.Playing.{IsPutBy, fault_met, fault_of_stop as told_stop};

use base_types::Entry;
use cell_states::{Cell, Part};
use command_open::Stopped;
use command_outcomes::{Fault, Status, put_fault, status_of};
use data_atlas::Atlas;
use edge_streams::{Sink, SinkFault};
use line_entries::put_summary;
use line_runs::{put_output, put_traced};

/// What a run puts of its history: `lines_of` in specs/.
#[derive(Clone, Copy, Debug)]
pub enum Lines {
    /// A line for each value that it printed: the name of the locus, and the value.
    Printed,
    /// A line for each entry: the trace.
    Entries,
    /// One line for all entries: how many there are of each kind, and the printed values added up.
    Summary,
}

/// What a run that was stopped tells.
fn fault_of_stop(why: Stopped) -> Fault
    ensures { result ≡ told_stop why }
{
    match why {
        Stopped::NoBlocks(blocks) => Fault::NoBlocks(blocks),
        Stopped::ReadFault | Stopped::WriteFault => Fault::DiskFault,
    }
}

/// The fault that a run met: why its kernel has stopped, or else that it lacked memory.
pub fn met_by(stopped: Option<Stopped>, lacked: bool) -> Option<Fault>
    ensures { result ≡ fault_met stopped lacked }
{
    match stopped {
        Some(why) => Some(fault_of_stop(why)),
        None => { if lacked { Some(Fault::Memory) } else { None } }
    }
}

/// Puts the lines of a history, by a directory of names.
fn put_named<W: Sink>(
    sink: &mut W,
    lines: Lines,
    atlas: &Atlas,
    history: &[Entry],
) -> Result<(), SinkFault>
    ensures bytes { Puts (W.held sink.old) (W.held sink.new) result (lines_of lines (atlas_state atlas.now) history.now) }
    ensures count { W.faults sink.old ≤ W.faults sink.new }
    ensures cause { OnErr result (Rose (W.faults sink.old) (W.faults sink.new)) }
{
    match lines {
        Lines::Printed => put_output(sink, atlas, history),
        Lines::Entries => put_traced(sink, atlas, history),
        Lines::Summary => put_summary(sink, history),
    }
}

/// Puts the lines of a run, by the directory that its cells have; cells without one have no names.
pub fn put_lines<W: Sink>(
    sink: &mut W,
    lines: Lines,
    cells: &[Cell],
    history: &[Entry],
) -> Result<(), SinkFault>
    ensures bytes { Puts (W.held sink.old) (W.held sink.new) result (lines_of lines (atlas_state_in cells.now) history.now) }
    ensures count { W.faults sink.old ≤ W.faults sink.new }
    ensures cause { OnErr result (Rose (W.faults sink.old) (W.faults sink.new)) }
{
    match cells {
        [first, ..] => match &first.part {
            Part::Atlas(atlas) => put_named(sink, lines, atlas, history),
            Part::Container(_) | Part::Locus(_) => put_named(sink, lines, &Atlas::new(), history),
        },
        [] => put_named(sink, lines, &Atlas::new(), history),
    }
}

/// Puts the lines of a run that was stopped, and behind them that of the fault.
#[tactic(auto, using(edge_streams::proofs::Streams::puts))]
fn put_cut_short<W: Sink>(
    sink: &mut W,
    lines: Lines,
    cells: &[Cell],
    history: &[Entry],
    fault: &Fault,
) -> Result<(), SinkFault>
    ensures bytes { Puts (W.held sink.old) (W.held sink.new) result (lines_of lines (atlas_state_in cells.now) history.now ++ fault_line fault.now) }
    ensures count { W.faults sink.old ≤ W.faults sink.new }
    ensures cause { OnErr result (Rose (W.faults sink.old) (W.faults sink.new)) }
{
    put_lines(sink, lines, cells, history)?;
    put_fault(sink, fault)
}

/// Puts the lines of a run, and tells how it ended, by the fault that it met. A sink that fails behind a run that met one changes no status.
pub fn put_run<W: Sink>(
    sink: &mut W,
    lines: Lines,
    cells: &[Cell],
    history: &[Entry],
    met: Option<Fault>,
) -> Status
    ensures put { IsPutBy met (seen_sink W.held W.faults sink.old sink.new) (lines_of lines (atlas_state_in cells.now) history.now) result }
    ensures count { W.faults sink.old ≤ W.faults sink.new }
{
    match met {
        None => {
            if put_lines(sink, lines, cells, history).is_ok() {
                Status::Done
            } else {
                Status::SinkFault
            }
        }
        Some(fault) => {
            let _ = put_cut_short(sink, lines, cells, history, &fault);
            status_of(fault)
        }
    }
}
