//! A log as it is read, as it grows and as it turns to the other area: records in range behind those before them, and which
//! blocks stay. No function stands here: `specs/` has the words, `proofs/` the lemmas.
#![tactic(auto)]
