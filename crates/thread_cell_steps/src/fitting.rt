// Whether cells are those that the next step of a locus touches.
ghost use Rattle.std.specs.Prelude.{◌≡◌, ◌≢◌, ◌∷◌, [], true, false};
ghost use Rattle.page_store.specs.model_kernel.Outcomes.{free_container, free_locus};
ghost use Rattle.page_store.specs.model_kernel.State.{AtlasState};
ghost use Rattle.table_laws.specs.data_atlas_facts.Directory.{Directory};
ghost use Rattle.table_laws.specs.act_calls.Calls.{atlas_state};
ghost use Rattle.thread_cell_steps.specs.Advancing.{second_of, ShowsAtlas};
ghost use Rattle.thread_steps.specs.Lending.{numbers_of, touched_by};

use base_types::{FIRST_LOCUS, Kind, MOST_CONTAINERS, MOST_LOCI};
use table_laws::{Cell, Part, Reach};

/// The number of the container that is made next, by the cell of the atlas; none where all are taken.
fn next_container(cell: &Cell) -> Option<u8>
    ensures { (d : Directory) → cell.now.part ≡ Part.Atlas d → result ≡ free_container (atlas_state d) }
{
    match &cell.part {
        Part::Atlas(atlas) => {
            let born = atlas.named(Kind::Container);
            if (born as usize) < MOST_CONTAINERS {
                Some(born + 1)
            } else {
                None
            }
        }
        _ => None,
    }
}

/// The number of the locus that is spawned next, by the cell of the atlas; none where all are taken.
fn next_locus(cell: &Cell) -> Option<u8>
    ensures { (d : Directory) → cell.now.part ≡ Part.Atlas d → result ≡ free_locus (atlas_state d) }
{
    match &cell.part {
        Part::Atlas(atlas) => {
            let born = atlas.named(Kind::Locus);
            if (born as usize) < MOST_LOCI {
                Some(born + FIRST_LOCUS)
            } else {
                None
            }
        }
        _ => None,
    }
}

/// Whether an act that reaches so far touches this cell besides the locus, and no other.
pub(crate) fn touches_one(reach: Reach, cell: &Cell) -> bool
    ensures fits { result ≡ true → (a : AtlasState) → ShowsAtlas a cell.now → numbers_of (cell.now ∷ []) ≡ touched_by a reach }
    ensures unfit { result ≡ false → (a : AtlasState) → ShowsAtlas a cell.now → numbers_of (cell.now ∷ []) ≢ touched_by a reach }
{
    let number = cell.clock.entity.number();
    match reach {
        Reach::Beside(named) => named.number() == number,
        Reach::Look(named) => named.number() == number,
        Reach::Make => number == 0 && next_container(cell).is_none(),
        Reach::Spawn => number == 0 && next_locus(cell).is_none(),
        _ => false,
    }
}

/// The entity that an act which reaches so far touches besides the locus and the atlas, by the cell of the atlas; none where it touches
/// no such two.
fn beside_atlas(reach: Reach, atlas: &Cell) -> Option<u8>
    ensures { (d : Directory) → atlas.now.part ≡ Part.Atlas d → result ≡ second_of (atlas_state d) reach }
{
    match reach {
        Reach::Mapping(named) => Some(named.number()),
        Reach::Make => next_container(atlas),
        Reach::Spawn => next_locus(atlas),
        _ => None,
    }
}

/// Whether an act that reaches so far touches these two besides the locus, the atlas and the other, and no other.
pub(crate) fn touches_two(reach: Reach, atlas: &Cell, other: &Cell) -> bool
    ensures fits { result ≡ true → (a : AtlasState) → ShowsAtlas a atlas.now → numbers_of (atlas.now ∷ other.now ∷ []) ≡ touched_by a reach }
    ensures unfit { result ≡ false → (a : AtlasState) → ShowsAtlas a atlas.now → numbers_of (atlas.now ∷ other.now ∷ []) ≢ touched_by a reach }
{
    if atlas.clock.entity.number() != 0 {
        return false;
    }
    match beside_atlas(reach, atlas) {
        Some(number) => number == other.clock.entity.number(),
        None => false,
    }
}
