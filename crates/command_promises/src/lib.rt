//! What the commands leave and tell: a run, a drill, an opened image, a checked trace, each case by its cause. The function does
//! nothing: its contract is a law.
#![tactic(auto)]

ghost use Rattle.command_promises.specs.Sources.{most_bytes, traced_meaning};
ghost use Rattle.script_meaning.specs.Reading.{refused};
ghost use Rattle.script_drill.specs.script_types.declared.refusals.Why.TheVariants.{Long};
ghost use Rattle.std.specs.Prelude.{codes, length, ◌<◌, ◌≡◌};
ghost use Rattle.image_facts.specs.model_kernel.State.{Text};

mod kept_runs;

pub use kept_runs::kept_law;
pub use kernel_runs::run;
pub use open_kernel::{Ended, Kernel, OpenFault, OpenWhy, Stopped, open_image};

/// A source with a trace that is longer than both may be is refused as too long.
pub fn long_source_law()
    ensures { (bytes : Text) → most_bytes < length bytes → traced_meaning bytes ≡ refused Long (codes "-") }
{}
