use edge_disk::NoBlocks;
use page_store::{MemoryPages, PageFault, PageStore};
use std::test::Fail;

#[test]
fn a_page_written_is_read_back_until_a_call_fails(rt: HostRuntime) -> Result<(), Fail> {
    let mut store = MemoryPages::new(rt.alloc(), 1, vec![in rt.alloc(); 3u64]?)?;
    let taken = store.take_block();
    assert!(rt; taken == Ok(1));
    if let Ok(block) = taken {
        let mut words = [0; 128];
        assert!(rt; !store.is_held(0) && !store.is_held(2));
        assert!(rt; store.is_held(block));
        assert!(rt; store.write_page(block, &[7; 128]) == Ok(()));
        assert!(rt; store.is_held(block));
        assert!(rt; store.read_page(block, &mut words) == Ok(()));
        assert!(rt; (words[0], words[127]) == (7, 7));
        assert!(rt; !store.kept(block));
        assert!(rt; store.is_held(block));
        assert!(rt; store.read_page(block, &mut words) == Err(PageFault::ReadFault));
        assert!(rt; store.is_held(block));
        assert!(rt; store.write_page(block, &[8; 128]) == Err(PageFault::Shut));
        let more = store.take_block();
        assert!(rt; more == Err(NoBlocks { need: 1, free: 0 }));
        assert!(rt; store.is_held(block));
        store.give_back(block);
    }
    Ok(())
}
