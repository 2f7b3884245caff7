// One look at a locus: its step, and what comes behind it.
ghost use Rattle.std.specs.Prelude.{◌≡◌};
ghost use Rattle.std.specs.Result.{result_err};
ghost use Rattle.kernel_core_facts.specs.table_laws.Tables.{AreClean};
ghost use Rattle.kernel_core_facts.specs.kernel_commit_facts.Steady.{IsSteady};
ghost use Rattle.kernel_core.specs.Answering.{answer_by};
ghost use Rattle.kernel_core_facts.specs.Looked.{StepsOnce};
ghost use Rattle.kernel_core_facts.specs.kernel_record_facts.Cells.{words_on};

use base_types::{Entity, Entry};
use edge_disk::Disk;
use edge_managers::{Gate, Policy, Supplier};
use kernel_core_facts::{Core, Looked, StepFault, Stop, Stopped, advance, page_stop};

/// One step of the locus with this number, with its entry noted; none where it can't step, and then why.
///
/// It takes no memory. It makes at most one read and one write of the disk, of a page each.
pub(crate) fn step_core<D: Disk, S: Supplier, P: Policy>(
    core: &mut Core<D>,
    me: Entity,
    gate: &Gate<S, P>,
) -> Result<Looked, Stopped>
    requires keeps { S.keeps gate.now.supply }
    requires steady { IsSteady D.Disk core.old }
    requires clean { D.tells → AreClean (S.word gate.now.supply) (words_on (D.reading core.old.store.disk)) core.old.cells }
    ensures { StepsOnce D.Disk (S.word gate.now.supply) me core.old core.new result }
{
    match advance(&mut core.cells, me, &mut core.store, gate) {
        Ok(made) => {
            core.notes.push_entry(&made.entry);
            Ok(Looked::Made(made))
        }
        Err(StepFault::Idle(why)) => Ok(Looked::Idle(why)),
        Err(StepFault::Paging(fault)) => Err(page_stop(fault)),
    }
}

/// Why a look stopped the kernel, if it did.
pub(crate) fn why_stopped(came: &Result<Looked, Stopped>) -> Option<Stopped>
    ensures { result ≡ result_err came.now }
{
    match came {
        Ok(_) => None,
        Err(why) => Some(*why),
    }
}

/// What a call of the kernel answers that came to this.
pub(crate) fn answered(came: &Result<Looked, Stopped>) -> Result<Entry, Stop>
    ensures { result ≡ answer_by came.now }
{
    match came {
        Ok(Looked::Made(made)) => Ok(made.entry),
        Ok(Looked::Idle(why)) => Err(Stop::Idle(*why)),
        Err(why) => Err(Stop::told(*why)),
    }
}
