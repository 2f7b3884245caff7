//! Whether the parts that the chosen records of an image spell fit each other: check 5 of an image, without a disk.
//!
//! The atlas is chosen and names each chosen entity; what a part names is born and of the right kind; the atlas counts exactly
//! the regions that containers show, which make no circle; and the block of each page is named once.
#![tactic(auto)]

mod born;
mod chosen;
mod circles;
mod edges;
mod fits;
mod names;
mod ties;

pub use blob_atlas::{BadBlob, ContainerBlob, read_atlas, read_container, read_locus};
pub use born::{are_born, is_born, is_born_container};
pub use chosen::{ChosenEntity, ChosenPart};
pub use circles::has_no_circle;
pub use edges::ties_atlas;
pub use fits::first_unfit;
pub use ties::{ties_container, ties_locus};
