//! What the checks of chosen parts count and mark: edges of a tally, names of blocks, uses, circles. No function stands here:
//! `specs/` has the words, `proofs/` the lemmas.
#![tactic(auto)]
