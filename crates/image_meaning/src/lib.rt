//! What an image means: which images are accepted, which state they stand for, and on which blocks that rests. An image is
//! accepted where its records are (`image_blocks`), each chosen blob is a spelling, and the chosen entities fit each other.
//! The functions do nothing: the contract of each is a law.
#![tactic(auto)]

ghost use Rattle.std.specs.Prelude.{◌≡◌, ℕ, []};
ghost use Rattle.image_blocks.specs.edge_disk.Image.{Image};
ghost use Rattle.blob_grammar.specs.model_kernel.Soundness.{IsSound};
ghost use Rattle.blob_grammar.specs.model_kernel.State.{KernelState, Supply, empty_state};
ghost use Rattle.image_blocks.specs.Checks.{Bad};
ghost use Rattle.image_blocks.specs.Logs.{HasRecords};
ghost use Rattle.image_meaning.specs.Describing.{MeaningLaw};
ghost use Rattle.image_meaning.specs.Empty.{IsFormatted};
ghost use Rattle.image_meaning.specs.Foreign.{IsForeign};
ghost use Rattle.image_meaning.specs.Meaning.{Accepted, Means};
ghost use Rattle.image_meaning.specs.Resting.{RestsOnLaw};

/// What an image means rests on a few of its blocks: an image of as many blocks that agrees there means the same.
pub fn rests_on_law()
    ensures { RestsOnLaw }
{}

/// An image that stores records which describe a sound state, where each page's block is named once, is accepted and means
/// that state.
pub fn stored_meaning_law()
    ensures { MeaningLaw }
{}

/// The state that an image means is sound.
pub fn sound_meaning_law()
    ensures { (s : Supply) (image : Image) (v : KernelState) → Means s image v → IsSound (λ x. (v x).cell) }
{}

/// An image means at most one state.
pub fn one_meaning_law()
    ensures { (s : Supply) (image : Image) (v w : KernelState) → Means s image v → Means s image w → v ≡ w }
{}

/// An image without a record means the state in which nothing but the atlas is born; so does one as it is formatted.
pub fn empty_image_law()
    ensures no_record { (s : Supply) (image : Image) → HasRecords [] image → Means s image empty_state }
    ensures formatted { (s : Supply) (count : ℕ) (image : Image) → IsFormatted count image
        → Means s image empty_state }
{}

/// The first bad place: an image has at most one, an accepted image has none, and no image is neither accepted nor has one.
pub fn first_bad_place_law()
    ensures one { (image : Image) (bad other : Bad) → IsForeign image bad → IsForeign image other → bad ≡ other }
    ensures accepted { (image : Image) (bad : Bad) → Accepted image → IsForeign image bad → ⊥ }
    ensures neither { (image : Image) → (Accepted image → ⊥) → ((bad : Bad) → IsForeign image bad → ⊥) → ⊥ }
{}
