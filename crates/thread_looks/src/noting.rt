//! What came of a step, noted.
ghost use Rattle.std.specs.Prelude.{◌≡◌, ◌<◌, length};
ghost use Rattle.thread_looks.specs.Making.{looked_by, noted_by, IsOpenly};

use kernel_core_facts::{Looked, Made, Notes, StepFault, Stopped, page_stop};

/// Notes the entry of a step that was made.
pub(crate) fn note_came(notes: &mut Notes, came: Result<Made, StepFault>) -> Result<Looked, Stopped>
    requires room { length notes.old.entries < notes.old.room }
    requires works { IsOpenly came }
    ensures looked { result ≡ looked_by came }
    ensures noted { notes.new ≡ noted_by came notes.old }
{
    match came {
        Ok(made) => {
            notes.push_entry(&made.entry);
            Ok(Looked::Made(made))
        }
        Err(StepFault::Idle(why)) => Ok(Looked::Idle(why)),
        Err(StepFault::Paging(fault)) => Err(page_stop(fault)),
    }
}
