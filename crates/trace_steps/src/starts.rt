//! A checker before the first entry.
ghost use Rattle.std.specs.Prelude.{◌≡◌, ◌≤◌, ◌^◌, [], All, IfOk, false};
ghost use Rattle.plain_states.specs.model_kernel.Histories.{Policy as AnyPolicy};
ghost use Rattle.plain_states.specs.model_kernel.Soundness.{IsSound};
ghost use Rattle.plain_states.specs.model_kernel.State.{Supply};
ghost use Rattle.plain_states.specs.Born.{AreEdges, AreOfOneKind};
ghost use Rattle.plain_states.specs.Plains.{atlas_of, cells_of};
ghost use Rattle.script_types.specs.Rules.{IsScript};
ghost use Rattle.script_types.specs.Scripts.{tables_of};
ghost use Rattle.trace_state.specs.Clocks.{clock_at};
ghost use Rattle.trace_step_facts.specs.Recording.{Opens};
ghost use Rattle.trace_steps.specs.Standing.{Stands};
ghost use Rattle.trace_step_facts.specs.Standing.{fresh};

use crate::checker::Checker;
use crate::stables::append_changed;
use base_types::Cut;
use plain_states::Plain;
use script_types::Script;
use std::alloc::{AllocError, Global};
use trace_state::{Clocks, Cuts, Wishes};
use trace_step_facts::next_name;

/// The cut at the start, and a record of each entity that has a version there.
fn opened(alloc: Global, clocks: &Clocks, versions: &[u64; 64]) -> Result<Cuts, AllocError>
    ensures { IfOk result (λ cuts. Opens versions.now (clock_at clocks.now) cuts) }
{
    let mut cuts = Cuts {
        start: Cut(*versions),
        cut: Cut(*versions),
        recs: Vec::new(alloc),
    };
    append_changed(&mut cuts, clocks, &[0; 64], versions)?;
    Ok(cuts)
}

/// A checker before the first entry of a run of the script from this state. Its clocks tell nothing: which histories are legal
/// doesn't depend on the clocks at the start.
pub fn begin(
    alloc: Global,
    start: Plain,
    versions: [u64; 64],
    script: &Script,
) -> Result<Checker, AllocError>
    requires sound { (s : Supply) → IsSound (cells_of s start) }
    requires edges { AreEdges start.atlas.edges.items }
    requires low { All (λ v. v ≤ 2 ^ 62) versions }
    requires script { IsScript (tables_of script.now) }
    requires kinds { AreOfOneKind (atlas_of start.atlas) (tables_of script.now) }
    ensures stands { IfOk result (λ c. (s : Supply) (p : AnyPolicy) → Stands s p (tables_of script.now) (fresh s start versions) c []) }
    ensures untried { IfOk result (λ c. c.tried ≡ false) }
{
    let clocks = Clocks::new(alloc)?;
    let cuts = opened(alloc, &clocks, &versions)?;
    let mut wishes = Wishes::new(&versions);
    wishes.full = cuts.full();
    let births_left = next_name(script, &start.atlas).is_some();
    Ok(Checker {
        state: start,
        versions,
        clocks,
        wishes,
        cuts,
        made: [0; 64],
        began: true,
        owed: None,
        short: false,
        births_left,
        tried: false,
    })
}
