use edge_disk::MemoryDisk;
use store_books::{pages_only_law, stored_law};

#[test]
fn the_laws_hold_of_a_disk_in_memory(_rt: HostRuntime) {
    stored_law::<MemoryDisk>();
    pages_only_law::<MemoryDisk>();
}
