//! The bytes of a blob, field by field: which spell a field, where the first bad one stands, and how lists of fields are put.
//! No function stands here: `specs/` has the words, `proofs/` the lemmas.
#![tactic(auto)]

pub use act_atlas_laws::{Chain, Code, Head, Locus, MOST_INSTRS, Privates};
