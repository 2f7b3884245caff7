//! The directory of names as lists: which number a name leads to, which names are made, and that one of them is no one's. No
//! function stands here: `specs/` has the words, `proofs/` the lemmas.
#![tactic(auto)]
