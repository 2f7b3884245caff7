//! Copies that are refused, and those that want more blocks than are free.
use crate::calls::{BEFORE, copied, fault_of, shown_on, wanted};
use crate::images::{with_forty, with_pages};
use container_copy::{CopyFault, CopyWhy};
use edge_disk::{MemoryDisk, NoBlocks};
use image_blocks::Bad;
use script_types::Why;
use std::alloc::Global;
use std::process::Abort;
use std::test::Fail;

// A copy is refused for this reason, with this key.
fn is_refused(
    rt: &impl Abort,
    alloc: Global,
    disk: MemoryDisk,
    names: (&str, &str),
    reason: Why,
    key: &str,
) -> Result<MemoryDisk, Fail> {
    let CopyFault { why, disk } = fault_of(alloc, disk, names.0, names.1)?;
    match why {
        CopyWhy::Refused(refusal) => {
            assert!(rt; refusal.why == reason, "{key}");
            assert!(rt; refusal.key.as_str() == key, "{key}");
            Ok(disk)
        }
        _ => Err(Fail::from("a refusal")),
    }
}

// Each of these copies is refused, and the image shows the same.
fn are_refused(
    rt: &impl Abort,
    alloc: Global,
    table: &[(&str, &str, Why, &str)],
) -> Result<(), Fail> {
    for (name, fresh, why, key) in table {
        let disk = with_pages(alloc, 2600, 1, &[])?;
        let mut disk = is_refused(rt, alloc, disk, (*name, *fresh), *why, *key)?;
        let shown = shown_on(alloc, &mut disk)?;
        assert!(rt; shown.as_str() == BEFORE, "{shown}");
    }
    Ok(())
}

#[test]
fn what_no_container_is_named_is_refused(rt: HostRuntime) -> Result<(), Fail> {
    // The locus, the atlas, nobody, and nobody under a name that is refused too.
    let table = [
        ("l", "x", Why::Unknown, "l"),
        ("atlas", "x", Why::Unknown, "atlas"),
        ("b", "x", Why::Unknown, "b"),
        ("b", "a", Why::Unknown, "b"),
    ];
    are_refused(&rt, rt.alloc(), &table)
}

#[test]
fn a_new_name_that_may_not_be_given_is_refused(rt: HostRuntime) -> Result<(), Fail> {
    // Those of the container, of the locus and of the atlas, one that no one gives, none, and one of 25 letters.
    let table = [
        ("a", "a", Why::Name, "a"),
        ("a", "l", Why::Name, "l"),
        ("a", "atlas", Why::Name, "atlas"),
        ("a", "#2", Why::Name, "#2"),
        ("a", "", Why::Name, ""),
        (
            "a",
            "abcdefghijklmnopqrstuvwxy",
            Why::Name,
            "abcdefghijklmnopqrstuvwxy",
        ),
    ];
    are_refused(&rt, rt.alloc(), &table)
}

#[test]
fn no_more_than_forty_containers_are_born(rt: HostRuntime) -> Result<(), Fail> {
    let alloc = rt.alloc();
    let disk = with_forty(alloc)?;
    let disk = is_refused(&rt, alloc, disk, ("a0", "e0"), Why::NoRoom, "container")?;
    // Both other reasons come first.
    let disk = is_refused(&rt, alloc, disk, ("e0", "e1"), Why::Unknown, "e0")?;
    is_refused(&rt, alloc, disk, ("a0", "d9"), Why::Name, "d9")?;
    Ok(())
}

#[test]
fn what_is_no_image_is_foreign(rt: HostRuntime) -> Result<(), Fail> {
    let alloc = rt.alloc();
    let disk = MemoryDisk::new(alloc, 2600, 10, Vec::new(alloc))?;
    let fault = fault_of(alloc, disk, "a", "b")?;
    let first = Bad { block: 0, place: 0 };
    match fault.why {
        CopyWhy::Foreign(bad) => assert!(rt; bad == first),
        _ => return Err(Fail::from("a bad place")),
    }
    Ok(())
}

#[test]
fn one_block_too_few_is_told_with_both_numbers(rt: HostRuntime) -> Result<(), Fail> {
    let alloc = rt.alloc();
    // Of 36 blocks of the pool 16 pages and three blobs have one each; 16 pages and two blobs are wanted.
    let mut disk = with_pages(alloc, 2601, 16, &[])?;
    let before = shown_on(alloc, &mut disk)?;
    let fault = fault_of(alloc, disk, "a", "b")?;
    assert!(rt; wanted(&fault.why) == Some(NoBlocks { need: 18, free: 17 }));
    let mut disk = fault.disk;
    let behind = shown_on(alloc, &mut disk)?;
    assert!(rt; behind.as_str() == before.as_str(), "{behind}");
    Ok(())
}

#[test]
fn all_free_blocks_are_used(rt: HostRuntime) -> Result<(), Fail> {
    let alloc = rt.alloc();
    let mut disk = copied(alloc, with_pages(alloc, 2602, 16, &[])?, "a", "b")?.disk;
    let shown = shown_on(alloc, &mut disk)?;
    assert!(rt;
        shown
            .as_str()
            .ends_with("word b 0 5\nlocus l a 2 running 2 5 0 0 0 0 0 0 0\n"),
        "{shown}"
    );
    let fault = fault_of(alloc, disk, "a", "d")?;
    assert!(rt; wanted(&fault.why) == Some(NoBlocks { need: 18, free: 1 }));
    Ok(())
}
