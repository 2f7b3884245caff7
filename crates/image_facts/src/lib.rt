//! Where the parts of an image stand, which blocks are refused at which byte, and worked blocks. No function stands here:
//! `specs/` has the words, `proofs/` the lemmas.
#![tactic(auto)]
