// The last record of an entity.
ghost use Rattle.std.specs.Prelude.{◌≡◌};
ghost use Rattle.node_pages.specs.Reading.{last_rec};

use base_types::{Entity, Rec};

/// The last of these that is of the entity. It looks at each.
pub fn last_rec(recs: &[Rec], entity: Entity) -> Option<Rec>
    ensures { result ≡ last_rec recs.now entity }
{
    let mut last = None;
    for rec in recs {
        if rec.entity == entity {
            last = Some(*rec);
        }
    }
    last
}
