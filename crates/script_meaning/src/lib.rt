//! What the tree of a source means: its tables, names, regions, capabilities, programs and managers, read one after another,
//! and the first refusal. No function stands here: `specs/` has the words, `proofs/` the lemmas.
#![tactic(auto)]
