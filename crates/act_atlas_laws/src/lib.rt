//! What the directory's words are in the model: laws that join both, without code.
#![tactic(auto)]

ghost use Rattle.std.specs.Prelude.{◌≡◌, ◌↔◌, ℕ, ◌≤◌, List, length, IsTrue};
ghost use Rattle.act_calls.specs.model_kernel.State.{Cell as ModelCell};
ghost use Rattle.act_calls.specs.model_kernel.Scripts.{number_of};
ghost use Rattle.act_calls.specs.model_kernel.Soundness.{is_given_name, is_born_container, AreSound};
ghost use Rattle.act_calls.specs.data_atlas_facts.Directory.{Directory, entity_named, IsName, IsBornContainer};
ghost use Rattle.act_calls.specs.Calls.{atlas_state};
ghost use Rattle.act_atlas_laws.specs.Mapping.{MeetsMapping};

pub use act_calls::{Chain, Code, Head, Locus, MOST_INSTRS, Privates};

/// The directory and the model take the same texts for names that may be given.
pub fn given_names_are_the_models()
    ensures { (name : List ℕ) → IsName name ↔ IsTrue (is_given_name name) }
{}

/// A name leads to the same number in the directory and in the model.
pub fn numbers_of_names_are_the_models()
    ensures { (a : Directory) (name : List ℕ) → entity_named a name ≡ number_of (atlas_state a) name }
{}

/// The same containers are born in the directory and in the model.
pub fn born_containers_are_the_models()
    ensures { (a : Directory) (n : ℕ) → length a.containers ≤ 40
        → IsBornContainer a n ↔ IsTrue (is_born_container (atlas_state a) n) }
{}

/// A sound state meets what the calls on regions ask of the directory, the locus and the container.
pub fn sound_states_meet_mapping()
    ensures { (a : Directory) (cells : ℕ → ModelCell) → AreSound (atlas_state a) cells → MeetsMapping a cells }
{}
