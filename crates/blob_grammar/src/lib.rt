//! How the values of entities are spelled in the blobs of snapshot records: an atlas, a container without its words, and
//! a locus. `specs/Spelling` gives the bytes as a function of the value, `specs/Forms` says which values have a spelling.
//! The functions do nothing: the contract of each is a law.
#![tactic(auto)]

ghost use Rattle.std.specs.Prelude.{◌≡◌, ◌≤◌, ◌↔◌, ℕ, List, length, IsTrue};
ghost use Rattle.std.specs.Option.{ForSome};
ghost use Rattle.model_kernel.specs.base_types.declared.entities.Kind.{Kind};
ghost use Rattle.model_kernel.specs.Refusals.{instr_at};
ghost use Rattle.model_kernel.specs.Soundness.{AreSound, IsSoundAtlas, IsSoundContainer, IsSoundLocus, is_born, looks};
ghost use Rattle.model_kernel.specs.State.{AtlasState, Cell, ContainerState, LocusState};
ghost use Rattle.blob_grammar.specs.Examples.{WorkedPlaces, WorkedSpellings};
ghost use Rattle.blob_grammar.specs.Forms.{IsAtlasForm, IsNumber, IsSpelling, SpellsAtlas, SpellsContainer, SpellsLocus};
ghost use Rattle.blob_grammar.specs.Laws.{IsPrefixFree, bytes_of_blocks, most_bytes};
ghost use Rattle.blob_grammar.specs.Places.{GoesPast, IsBadPlace};
ghost use Rattle.blob_grammar.specs.Shapes.{Born, BornContainer, IsContainerOver, IsLocusOver};

mod kinds;

pub use kinds::{
    ATLAS_BLOB, CONTAINER_BLOB, LONG_LOCUS, NO_ENTRY, SHORT_CALLS, SHORT_LOCUS, SHORT_PRIVATES,
};

/// A spelling stands for one value; that of a container for one value up to its words, and for one table of blocks.
pub fn one_value_law()
    ensures atlas { (a b : AtlasState) (bytes : List ℕ) → SpellsAtlas a bytes → SpellsAtlas b bytes → a ≡ b }
    ensures container { (c d : ContainerState) (t u bytes : List ℕ) → SpellsContainer c t bytes → SpellsContainer d u bytes
        → (t ≡ u) × (record c { words = d.words } ≡ d) }
    ensures locus { (l m : LocusState) (bytes : List ℕ) → SpellsLocus l bytes → SpellsLocus m bytes → l ≡ m }
{}

/// No spelling is the front of another of its kind: a reader knows where a value ends without being told its length.
pub fn prefix_free_law()
    ensures { (kind : Kind) → IsPrefixFree (IsSpelling kind) }
{}

/// How long spellings are. Each fits eight blocks, those of containers and loci four, and so does that of the atlas of a
/// sound state.
pub fn spelling_size_law()
    ensures some { (kind : Kind) (bytes : List ℕ) → IsSpelling kind bytes → 1 ≤ length bytes }
    ensures most { (kind : Kind) (bytes : List ℕ) → IsSpelling kind bytes → length bytes ≤ most_bytes kind }
    ensures eight_blocks { (kind : Kind) → most_bytes kind ≤ bytes_of_blocks 8 }
    ensures container { (c : ContainerState) (t bytes : List ℕ) → SpellsContainer c t bytes
        → length bytes ≤ bytes_of_blocks 4 }
    ensures locus { (l : LocusState) (bytes : List ℕ) → SpellsLocus l bytes → length bytes ≤ bytes_of_blocks 4 }
    ensures sound_atlas { (a : AtlasState) (cells : ℕ → Cell) (bytes : List ℕ) → AreSound a cells → SpellsAtlas a bytes
        → length bytes ≤ bytes_of_blocks 4 }
{}

/// The first byte at which no spelling goes on: there is one at most, none in a spelling, and it can't be that bytes which
/// are no spelling have none. Where bytes go on behind a whole spelling it is the first of these.
pub fn bad_place_law()
    ensures some { (kind : Kind) (bytes : List ℕ) → (IsSpelling kind bytes → ⊥)
        → ((place : ℕ) → IsBadPlace (IsSpelling kind) bytes place → ⊥) → ⊥ }
    ensures one { (kind : Kind) (bytes : List ℕ) (p q : ℕ) → IsBadPlace (IsSpelling kind) bytes p
        → IsBadPlace (IsSpelling kind) bytes q → p ≡ q }
    ensures good { (kind : Kind) (bytes : List ℕ) (place : ℕ) → IsSpelling kind bytes
        → IsBadPlace (IsSpelling kind) bytes place → ⊥ }
    ensures past { (kind : Kind) (bytes : List ℕ) (place : ℕ) → GoesPast (IsSpelling kind) bytes place
        → IsBadPlace (IsSpelling kind) bytes place }
{}

/// What is sound keeps its shape: a sound value is one that names those who are born, and who is born has a number below
/// 64. So the values of a sound state have spellings, where their numbers keep the ranges of their types.
pub fn sound_form_law()
    ensures container { (a : AtlasState) (c : ContainerState)
        → IsSoundContainer a c ↔ IsContainerOver (Born a) (BornContainer a) c }
    ensures locus { (a : AtlasState) (l : LocusState)
        → IsSoundLocus a l ↔ (IsLocusOver (Born a) (BornContainer a) l × ForSome l.walk (λ walk. IsTrue (looks (instr_at l)))) }
    ensures number { (a : AtlasState) (x : ℕ) → IsSoundAtlas a → IsTrue (is_born a x) → IsNumber x }
    ensures container_form { (a : AtlasState) (c : ContainerState) → IsSoundAtlas a → IsSoundContainer a c
        → IsContainerOver IsNumber IsNumber c }
    ensures locus_form { (a : AtlasState) (l : LocusState) → IsSoundAtlas a → IsSoundLocus a l
        → IsLocusOver IsNumber IsNumber l }
    ensures atlas_form { (a : AtlasState) (cells : ℕ → Cell) → AreSound a cells → IsAtlasForm a }
{}

/// Spellings and first bad places that were worked out by hand.
pub fn examples_hold()
    ensures spellings { WorkedSpellings }
    ensures places { WorkedPlaces }
{}
