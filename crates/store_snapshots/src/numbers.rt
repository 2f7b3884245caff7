// Records whose numbers an image can have.
ghost use Rattle.std.specs.Prelude.{◌≡◌};
ghost use Rattle.store_facts.specs.store_books.Books.{is_small as is_small_rec};

use base_types::Rec;
use store_facts::LAST_NUMBER;

// Whether version and stamp have no number above 2^62.
pub(crate) fn is_small(rec: &Rec) -> bool
    ensures { result ≡ is_small_rec rec.now }
{
    rec.version <= LAST_NUMBER && rec.stamp.iter().all(|number| *number <= LAST_NUMBER)
}
