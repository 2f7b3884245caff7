//! Which records of a log are chosen, and the slots they stand in.
ghost use Rattle.std.specs.Prelude.{◌≡◌, ◌≤◌, ◌&&◌, ◌==◌, AllPairs, None, IfSome, IfNone, length, slice_index};
ghost use Rattle.image_blocks.specs.image_facts.Layout.{slot_count};
ghost use Rattle.image_chosen_facts.specs.image_meaning.Parts.{chosen_by, cut_of};
ghost use Rattle.image_chosen_facts.specs.log_facts.Logs.{AreInRange, IsOlder};
ghost use Rattle.image_chosen_facts.specs.Choosing.{IsChosenSlot};

use base_types::{Cut, Entity, Rec};
use data_cuts::greatest;

// The greatest closed choice over the records of an image of so many blocks.
pub(crate) fn choice_of(count: u32, recs: &[Rec]) -> Cut
    requires few { length recs.now ≤ slot_count }
    requires range { AreInRange count recs.now }
    requires ascending { AllPairs IsOlder recs.now }
    ensures { slice_index result.0 ≡ cut_of recs.now }
{
    greatest(recs)
}

// Whether a record is that of the entity at the choice.
fn is_at(rec: &Rec, cut: &Cut, x: Entity) -> bool
    ensures { result ≡ ((rec.now.entity == x) && (rec.now.version == slice_index cut.now.0 x)) }
{
    let number = x.number();
    rec.entity.number() == number && rec.version == cut.0[number as usize]
}

// The first slot that has the chosen record of an entity.
pub(crate) fn chosen_slot(recs: &[Rec], cut: &Cut, x: Entity) -> Option<u16>
    requires few { length recs.now ≤ slot_count }
    ensures some { IfSome result (IsChosenSlot (slice_index cut.now.0) recs.now x) }
    ensures none { IfNone result (chosen_by (slice_index cut.now.0) recs.now x ≡ None) }
{
    for slot in 0..recs.len() {
        if is_at(&recs[slot], cut, x) {
            return Some(slot as u16);
        }
    }
    None
}
