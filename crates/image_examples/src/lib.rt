//! Worked values of what an image is refused for where its blobs are read: chosen entities that don't fit each other, and the
//! first bad place of a blob. The function does nothing: its contract is the list.
#![tactic(auto)]

ghost use Rattle.image_examples.specs.Examples.{WorkedBlobs, WorkedBlocks, WorkedFits};
ghost use Rattle.image_examples.specs.Images.{WorkedImages};

/// What fits and what doesn't, and first bad places, that were worked out by hand.
pub fn examples_hold()
    ensures fits { WorkedFits }
    ensures blocks { WorkedBlocks }
    ensures blobs { WorkedBlobs }
    ensures images { WorkedImages }
{}
