//! The commands that read an image and write nothing to its disk: `show`, what it means, and `report`, its log with the cut.
#![tactic(auto)]

mod reports;
mod shows;

pub use reports::report_image;
pub use shows::show_image;
