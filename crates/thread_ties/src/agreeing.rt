//! How the authority and a fragment show each other their values.
ghost use Rattle.std.specs.Prelude.{◌≡◌, ◌<◌, [], length, slice_get};
ghost use Rattle.thread_ties.specs.Rules.{changed, shown_of, with_shown};
ghost use Rattle.thread_ties.specs.Seats.{IsAt, IsAuthority, IsFragment};

use crate::seats::{hand_out, take_in, tell};
use crate::views::{NewValue, ValueSeat, ValueTable};

/// The authority takes the fragment in, finds its value there, may change it, and gives the fragment back.
pub(crate) fn agree_and_set<V, E: NewValue<V>>(
    table: &ValueTable<V>,
    authority: &mut ValueSeat<V>,
    fragment: &mut ValueSeat<V>,
)
    requires seats { IsAt table.now authority.old × IsAt table.now fragment.old × (authority.old.me.1 ≡ []) × (fragment.old.me.1 ≡ []) }
    requires authority { IsAuthority authority.old.me.0 }
    requires fragment { IsFragment fragment.old.me.0 }
    ensures seats { (authority.new.table_id ≡ authority.old.table_id) × (fragment.new.table_id ≡ fragment.old.table_id) × (authority.new.me.1 ≡ []) × (fragment.new.me.1 ≡ []) }
    ensures authority { IsAuthority authority.new.me.0 × (authority.new.me.0.values ≡ changed E.value (shown_of fragment.old.me.0.pieces).number authority.old.me.0.values) }
    ensures fragment { IsFragment fragment.new.me.0 × (shown_of fragment.new.me.0.pieces ≡ with_shown E.value (shown_of fragment.old.me.0.pieces)) }
    ensures number { (shown_of fragment.old.me.0.pieces).number < length authority.old.me.0.values }
    ensures agreed { slice_get authority.old.me.0.values (shown_of fragment.old.me.0.pieces).number ≡ (shown_of fragment.old.me.0.pieces).value }
{
    let piece = hand_out(table, fragment);
    take_in(table, authority, piece);
    tell::<V, E>(table, authority);
    *fragment = hand_out(table, authority);
}
