//! The abstract kernel: its states, acts, births, histories, parts and cuts. The definitions stand in specs/, and
//! stand on no code. The functions here do nothing: the contract of each is a fact about the definitions.
#![tactic(auto)]

ghost use Rattle.std.specs.Prelude.{◌≡◌, [], ◌∷◌};
ghost use Rattle.model_kernel.specs.Examples.{played, prints, five_instructions, five_entries, two_regions, two_regions_entries, closing_circles, private_in_one_host};

mod laws;

pub use laws::{
    cut_law, greatest_choice_law, locality_law, printed_law, replay_law, stable_law, vector_law,
};

/// What runs of small scripts give, computed from the definitions: entries with their versions, and printed values.
pub fn examples_hold()
    ensures a_store_a_load_and_a_print { played five_instructions 6 ≡ five_entries }
    ensures a_walk_that_ends_in_a_denial { played two_regions 5 ≡ two_regions_entries }
    ensures mappings_that_close_a_circle { prints closing_circles 13 ≡ 0 ∷ 0 ∷ 4 ∷ 4 ∷ [] }
    ensures a_private_region_counts_in_its_host { prints private_in_one_host 12 ≡ 2000 ∷ 3000 ∷ 2000 ∷ [] }
{}
