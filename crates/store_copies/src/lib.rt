//! What a stop may leave of the copying of a container in an image: the state of before, or the one with the copy, and nothing else. The
//! functions do nothing: the contract of each is a law.
#![tactic(auto)]

ghost use Rattle.store_copies.specs.Images.{FirstCommitLaw, SecondCommitLaw};
ghost use Rattle.store_copies.specs.Moments.{CopyMomentsLaw, KeptAgainLaw};

use edge_disk::Disk;

/// An image that stores the records of a state means it, also with the atlas's record of a copy.
pub fn first_commit_law()
    ensures { FirstCommitLaw }
{}

/// With both records of the copy it means the state with the copy.
pub fn second_commit_law()
    ensures { SecondCommitLaw }
{}

/// Behind the first commit the store keeps what it kept, and the new record.
pub fn kept_again_law()
    ensures { KeptAgainLaw }
{}

/// At each moment, while pages are written and the two records are committed, a stop leaves an image of the state of before or of the one with
/// the copy.
pub fn copy_moments_law<D: Disk>()
    ensures { CopyMomentsLaw D.Disk }
{}
