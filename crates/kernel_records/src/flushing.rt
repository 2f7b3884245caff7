// The changed pages of a part, written.
ghost use Rattle.std.specs.Prelude.{◌≡◌, ◌≤◌, ◌+◌, OnOk, IfErr};
ghost use Rattle.page_store.specs.model_kernel.State.{Supply};
ghost use Rattle.page_store.specs.Pages.{IsWriteFault};
ghost use Rattle.cell_wish_laws.specs.page_memory.Calls.{IsCausedIn};
ghost use Rattle.cell_wish_laws.specs.cell_states.Cells.{part_of};
ghost use Rattle.kernel_record_facts.specs.cell_blobs.Blobs.{page_need};
ghost use Rattle.kernel_record_facts.specs.Cells.{IsCleanIn, IsSettled, IsSoundIn};
ghost use Rattle.kernel_records.specs.Flushing.{FewWrites, FlushesIn};

use kernel_record_facts::Part;
use page_store::{PageFault, PageStore};

/// Writes the changed pages of a container, for which enough blocks are free. What has no pages is left as it is.
///
/// It answers `WriteFault` where a write failed, and `Shut` where a call of the store failed before and a page is changed. It looks
/// at each of the 256 pages, and makes a write for each that is changed.
pub fn flush_part<B: PageStore>(part: &mut Part, store: &mut B) -> Result<(), PageFault>
    requires table { IsSoundIn (B.held store.old) part.old }
    requires room { page_need (B.kept_names store.old) part.old ≤ B.free store.old }
    ensures means { B.tells → (s : Supply) → IsCleanIn s (B.words store.old) part.old
        → (part_of s (B.words store.new) part.new ≡ part_of s (B.words store.old) part.old) × IsCleanIn s (B.words store.new) part.new }
    ensures settled { OnOk result (IsSettled part.new) }
    ensures table { IsSoundIn (B.held store.new) part.new }
    ensures flushes { FlushesIn B.PageStore part.old part.new store.old store.new }
    ensures free { OnOk result (B.free store.old ≤ B.free store.new + page_need (B.kept_names store.old) part.old) }
    ensures fault { IfErr result IsWriteFault }
    ensures cause { IfErr result (IsCausedIn B.PageStore store.old store.new) }
    ensures writes { FewWrites (B.is_shut store.old) (B.is_shut store.new) (B.written store.old) (B.written store.new) }
    ensures faults { B.faults store.old ≤ B.faults store.new }
    ensures same_shut { OnOk result (B.is_shut store.new ≡ B.is_shut store.old) }
    ensures between { B.Pages store.old store.new }
{
    match part {
        Part::Container(storage) => storage.memory.flush(store),
        _ => Ok(()),
    }
}
