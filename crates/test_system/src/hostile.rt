//! Where the disk fails or is stopped, and where an image or a source is hostile: `calls` has the disk that the tests begin with,
//! `images` changes bytes of an image.
mod by_hand_tests;
mod calls;
mod image_tests;
mod images;
mod source_tests;
mod stop_tests;
