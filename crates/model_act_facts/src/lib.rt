//! What a locus wants, in facts about the model alone: which act, what it names beside the locus, and what its refusals
//! leave. No function stands here: `specs/` has the words, `proofs/` the lemmas.
#![tactic(auto)]
