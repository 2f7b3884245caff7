//! The act that a locus wants, written once for every way in which its lists are kept.
#![tactic(auto)]

mod acts;
mod checks;
mod choice;
mod looks;
mod mappings;
mod reads;
mod refusals;
mod view;

pub use acts::{sound_loci_are_ready, wants};
pub use checks::{denial, free_slot};
pub use choice::Act;
pub use looks::{next_address, next_walk};
pub use mappings::{new_region, place_of_private};
pub use reads::{
    caller, covers_page, fetch, named_cap, named_entity, named_rights, next_container, private_at,
    register,
};
pub use view::LocusView;
