//! What an image says, printed.
ghost use Rattle.std.specs.Prelude.{◌≡◌, ◌≤◌, ◌<◌, ◌^◌, ℕ, OnErr};
ghost use Rattle.edge_disk.specs.Counts.{Rose};
ghost use Rattle.plain_states.specs.Plains.{cells_of};
ghost use Rattle.plain_states.specs.model_kernel.Soundness.{IsSound};
ghost use Rattle.plain_states.specs.model_kernel.State.{Supply};
ghost use Rattle.plain_show.specs.Show.{shown};
ghost use Rattle.line_report.specs.Reports.{report_text};
ghost use Rattle.edge_streams.specs.Streams.{Puts};

use crate::image::ImageFacts;
use edge_streams::{Sink, SinkFault};
use line_report::{LogFacts, put_report};

/// Puts the report of an image: a line for its log, one for each record with its state, and one for each entity of which a version is
/// chosen, each line in one call: 705 at most. It takes no memory. After a fault a front of the text was put.
pub fn write_report<W: Sink>(sink: &mut W, facts: &ImageFacts) -> Result<(), SinkFault>
    ensures bytes { Puts (W.held sink.old) (W.held sink.new) result (report_text facts.now.log.area facts.now.log.epoch facts.now.log.recs.items facts.now.cut.0) }
    ensures count { W.faults sink.old ≤ W.faults sink.new }
    ensures cause { OnErr result (Rose (W.faults sink.old) (W.faults sink.new)) }
{
    let log = LogFacts {
        area: facts.log.area,
        epoch: facts.log.epoch,
        recs: &facts.log.recs,
        cut: facts.cut,
    };
    put_report(sink, &log)
}

/// Puts what an image shows: the lines of each container and each locus of the state that it means, each line in one call. It takes no
/// memory, and looks at each address of a container's pages. After a fault a front of the text was put.
pub fn write_show<W: Sink, S: Fn(u64, u32, u16) -> u64>(
    sink: &mut W,
    facts: &ImageFacts,
    supply: &S,
) -> Result<(), SinkFault>
    ghost s: { Supply }
    requires callable { (t p a : ℕ) → t < 2 ^ 64 → p < 256 → a < 128 → S.pre supply.now t p a }
    requires answers { (t p a r : ℕ) → t < 2 ^ 64 → p < 256 → a < 128 → S.post supply.now t p a r → r ≡ s t p a }
    requires sound { IsSound (cells_of s facts.now.state) }
    ensures bytes { Puts (W.held sink.old) (W.held sink.new) result (shown s (cells_of s facts.now.state)) }
    ensures count { W.faults sink.old ≤ W.faults sink.new }
    ensures cause { OnErr result (Rose (W.faults sink.old) (W.faults sink.new)) }
{
    plain_show::write_show(&facts.state, supply, sink)
}
