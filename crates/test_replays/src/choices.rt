//! The greatest closed choice of records, found from below: a record is in it where all that it needs is there, with all that this needs in
//! turn, and so is the greatest of these of each entity.
ghost use Rattle.std.specs.Prelude.{◌<◌, IfSome};

use base_types::{Cut, Rec};

// The least version from this one on that a record of the entity with this number has.
fn least_from(recs: &[Rec], number: usize, version: u64) -> Option<u64> {
    let mut least: Option<u64> = None;
    for rec in recs {
        let fits = rec.entity.number() as usize == number && version <= rec.version;
        if fits && least.is_none_or(|least| rec.version < least) {
            least = Some(rec.version);
        }
    }
    least
}

// The first entity of which a stamp needs a later version than is chosen, and which.
fn unmet(stamp: &[u64; 64], choice: &Cut) -> Option<(usize, u64)>
    ensures { IfSome result (λ need. need.0 < 64) }
{
    for (number, version) in stamp.iter().enumerate() {
        if choice.0[number] < *version {
            return Some((number, *version));
        }
    }
    None
}

// The same of the first chosen record whose stamp needs one.
fn wanting(recs: &[Rec], choice: &Cut) -> Option<(usize, u64)>
    ensures { IfSome result (λ need. need.0 < 64) }
{
    for rec in recs {
        if choice.0[rec.entity.number() as usize] == rec.version {
            let need = unmet(&rec.stamp, choice);
            if need.is_some() {
                return need;
            }
        }
    }
    None
}

// Whether all that a record needs is there: the choice of it alone, raised by what is wanting, is closed at last.
fn is_carried(recs: &[Rec], rec: &Rec) -> bool {
    let mut choice = Cut([0; 64]);
    choice.0[rec.entity.number() as usize] = rec.version;
    // Each raise takes a later record, so there are fewer than records.
    for _raise in 0..=recs.len() {
        let Some((number, version)) = wanting(recs, &choice) else {
            return true;
        };
        let Some(later) = least_from(recs, number, version) else {
            return false;
        };
        choice.0[number] = later;
    }
    false
}

/// The greatest closed choice of these records.
pub(crate) fn greatest_choice(recs: &[Rec]) -> Cut {
    let mut cut = Cut([0; 64]);
    for rec in recs {
        let number = rec.entity.number() as usize;
        if cut.0[number] < rec.version && is_carried(recs, rec) {
            cut.0[number] = rec.version;
        }
    }
    cut
}
