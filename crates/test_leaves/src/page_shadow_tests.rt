use data_blocks::{Ledger, Pool, ShadowTable, Uses};
use edge_disk::NoBlocks;
use std::process::Abort;
use std::test::Fail;

// Gives back a block that has to be in use.
fn give(rt: &impl Abort, pool: &mut Pool, block: u32) {
    let free = pool.is_free(block);
    let in_range = pool.is_in_range(block);
    assert!(rt; in_range && !free, "block {block} is in use");
    pool.give_back(block);
}

#[test]
fn the_pool_of_blocks_2565_to_2599_has_35_free(rt: HostRuntime) -> Result<(), Fail> {
    let mut pool = Pool::new(rt.alloc(), 2565, 2600)?;
    assert!(rt; pool.free() == 35);
    for &(block, want) in &[
        (0, false),
        (2564, false),
        (2565, true),
        (2599, true),
        (2600, false),
        (u32::MAX, false),
    ] {
        assert!(rt; pool.is_free(block) == want, "block {block}");
    }
    for want in 2565..2600 {
        assert!(rt; pool.take_block() == Ok(want));
    }
    assert!(rt; pool.take_block() == Err(NoBlocks { need: 1, free: 0 }));
    assert!(rt; pool.free() == 0);
    Ok(())
}

#[test]
fn blocks_come_back_in_their_place(rt: HostRuntime) -> Result<(), Fail> {
    let mut pool = Pool::new(rt.alloc(), 60, 200)?;
    for want in 60..140 {
        assert!(rt; pool.take_block() == Ok(want));
    }
    let free = pool.is_free(150);
    assert!(rt; free);
    pool.take_this(150);
    assert!(rt; pool.free() == 59);
    for &block in &[130, 63, 64] {
        give(&rt, &mut pool, block);
    }
    assert!(rt; pool.free() == 62);
    for &want in &[63, 64, 130, 140] {
        assert!(rt; pool.take_block() == Ok(want));
    }
    assert!(rt; !pool.is_free(150) && pool.is_free(151));
    Ok(())
}

#[test]
fn the_whole_of_the_largest_disk_fits(rt: HostRuntime) -> Result<(), Fail> {
    let mut pool = Pool::new(rt.alloc(), 0, 65536)?;
    assert!(rt; pool.free() == 65536);
    assert!(rt; pool.take_block() == Ok(0));
    for &(first, end) in &[(7, 7), (70, 7)] {
        let mut none = Pool::new(rt.alloc(), first, end)?;
        assert!(rt; none.take_block() == Err(NoBlocks { need: 1, free: 0 }));
    }
    Ok(())
}

#[test]
fn a_pool_with_nothing_free_fills_as_blocks_come_back(rt: HostRuntime) -> Result<(), Fail> {
    let mut pool = Pool::none_free(rt.alloc(), 2565, 2600)?;
    assert!(rt; pool.free() == 0);
    assert!(rt; pool.take_block() == Err(NoBlocks { need: 1, free: 0 }));
    give(&rt, &mut pool, 2599);
    give(&rt, &mut pool, 2565);
    assert!(rt; pool.free() == 2);
    assert!(rt; pool.take_block() == Ok(2565));
    Ok(())
}

#[test]
fn a_block_is_named_until_each_name_is_taken_back(rt: HostRuntime) -> Result<(), Fail> {
    let mut uses = Uses::new(rt.alloc(), 2600)?;
    assert!(rt; !uses.is_named(2565) && !uses.is_named(2600));
    uses.name(2565);
    uses.name(2565);
    uses.unname(2565);
    assert!(rt; uses.is_named(2565) && !uses.is_named(2566));
    uses.unname(2565);
    assert!(rt; !uses.is_named(2565));
    Ok(())
}

#[test]
fn zero_in_a_page_table_stands_for_no_block(rt: HostRuntime) {
    let mut table = ShadowTable::new();
    assert!(rt; table.block(0) == None);
    table.set(255, 2565);
    assert!(rt; table.block(255) == Some(2565));
    assert!(rt; table.0[255] == 2565);
    table.clear(255);
    assert!(rt; table == ShadowTable::new());
}

#[test]
fn a_ledger_counts_what_is_neither_held_nor_named(rt: HostRuntime) -> Result<(), Fail> {
    let mut ledger = Ledger::new(rt.alloc(), 5, 8)?;
    ledger.name(5);
    assert!(rt; ledger.is_named(5));
    assert!(rt; ledger.free() == 2);
    let block = match ledger.take_block() {
        Ok(block) => block,
        Err(_none) => panic!(rt; "two blocks are free"),
    };
    assert!(rt; (block, ledger.free()) == (6, 1));
    ledger.give_back(block);
    ledger.unname(5);
    assert!(rt; ledger.free() == 3);
    Ok(())
}

#[test]
fn a_ledger_of_named_blocks_has_none_to_take(rt: HostRuntime) -> Result<(), Fail> {
    let mut ledger = Ledger::all_named(rt.alloc(), 5, 8)?;
    assert!(rt; ledger.take_block() == Err(NoBlocks { need: 1, free: 0 }));
    Ok(())
}
