//! What a stop leaves while the two records of a copy are committed, in the words of a store's commit. The functions do nothing: the contract
//! of each is a law.
#![tactic(auto)]

ghost use Rattle.kernel_copies.specs.Pairs.{FirstMomentsLaw, KeptMeansLaw, PairDoneLaw, PairMomentsLaw};

use edge_disk::Disk;

/// While the store keeps the records of a state, each image that stores them means it; and so does each that a stop leaves while the first of
/// the two is committed, also where that fails.
pub fn first_moments_law<D: Disk>()
    ensures kept { KeptMeansLaw }
    ensures first { FirstMomentsLaw D.Disk }
{}

/// At each moment of the two commits a stop leaves an image of the state of before, or of the one with the copy.
pub fn pair_moments_law<D: Disk>()
    ensures { PairMomentsLaw D.Disk }
{}

/// Behind both each image that a stop may leave means the state with the copy.
pub fn pair_done_law<D: Disk>()
    ensures { PairDoneLaw D.Disk }
{}
