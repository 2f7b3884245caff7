/// A block of a page store in memory.
#[derive(Clone, Copy)]
pub(crate) struct Page {
    pub(crate) held: bool,
    pub(crate) words: [u64; 128],
}
