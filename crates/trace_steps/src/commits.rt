//! Commits: of one entity, or of all that have changed.
ghost use Rattle.std.specs.Prelude.{◌≡◌, ◌+◌, ◌≤◌, ◌++◌, ◌∷◌, [], OnOk, length, slice_index};
ghost use Rattle.plain_states.specs.model_kernel.Choices.{IsGreatest};
ghost use Rattle.trace_step_facts.specs.data_cut_facts.Records.{choice, IsAscending};
ghost use Rattle.model_run_rules.specs.model_cut_laws.Records.{commits_of, recs_from};
ghost use Rattle.trace_state.specs.Clocks.{clock_at};
ghost use Rattle.trace_step_facts.specs.Recording.{IsRecordAt};

use base_types::{Entity, Rec};
use std::alloc::AllocError;
use trace_state::{Clocks, Cuts};

/// The record of an entity at its version and with its clock.
pub fn record_of(clocks: &Clocks, versions: &[u64; 64], entity: Entity) -> Rec
    ensures { IsRecordAt (slice_index versions.now) (clock_at clocks.now) entity result }
{
    let x = entity.number() as usize;
    let clock = clocks.at(x);
    let stamp = clock.0;
    Rec {
        entity,
        version: versions[x],
        stamp,
        length: 0,
        blocks: [0; 8],
    }
}

/// Commits one entity. On want of memory nothing is committed.
pub fn commit_one(cuts: &mut Cuts, rec: Rec) -> Result<(), AllocError>
    requires few { length cuts.old.recs.items + 1 ≤ 640 }
    requires ascending { IsAscending (cuts.old.recs.items ++ rec ∷ []) }
    ensures start { cuts.new.start ≡ cuts.old.start }
    ensures greatest { OnOk result (IsGreatest (choice cuts.old.start) (commits_of (cuts.old.recs.items ++ rec ∷ [])) (choice cuts.new.cut)) }
    ensures kept { OnOk result (cuts.new.recs.items ≡ recs_from (choice cuts.new.cut) (cuts.old.recs.items ++ rec ∷ [])) }
{
    cuts.append(rec)?;
    cuts.raise();
    Ok(())
}
