use crate::{Snaps, snap_new};
use base_types::{Answer, Entity, Entry, Event, Touched};
use edge_disk::MemoryDisk;
use image_format::format;
use std::alloc::Global;
use std::test::Fail;

// What is made of a locus with this `every` in an empty image.
fn snaps_of(alloc: Global, every: u32) -> Result<Option<Snaps>, Fail> {
    let disk = MemoryDisk::new(alloc, 4096, 40, Vec::new(alloc))?;
    let disk = format(disk, 4096).ok().ok_or("an image")?;
    Ok(snap_new(alloc, disk, every))
}

#[test]
fn a_wished_snapshot_is_made_once(rt: HostRuntime) -> Result<(), Fail> {
    let entry = Entry {
        event: Event::Snap,
        actor: Entity::of(41),
        touched: Touched::none(),
        version: 3,
        answer: Answer::Quiet,
    };
    assert!(&rt;
        snaps_of(rt.alloc(), 2)?
            == Some(Snaps {
                first: Some(entry),
                second: None
            })
    );
    assert!(&rt;
        snaps_of(rt.alloc(), 0)?
            == Some(Snaps {
                first: None,
                second: None
            })
    );
    assert!(&rt;
        snaps_of(rt.alloc(), 3)?
            == Some(Snaps {
                first: None,
                second: None
            })
    );
    Ok(())
}
