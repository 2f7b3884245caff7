//! What an act does to plain states, and how a serial run of them goes on, in facts that need no code. No function stands
//! here: `specs/` has the words, `proofs/` the lemmas.
#![tactic(auto)]
