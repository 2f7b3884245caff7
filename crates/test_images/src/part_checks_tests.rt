//! Chosen entities that fit, and those that a change keeps from fitting.
use act_alone::{Head, Locus};
use base_types::{Cap, Entity, Instr, Kind, MOST_ENTITIES, Rec, Region, Rights, Walk};
use blob_reading::ContainerBlob;
use data_atlas::Atlas;
use image_fits::{
    ChosenEntity, ChosenPart, are_born, first_unfit, has_no_circle, is_born, is_born_container,
    ties_container, ties_locus,
};
use std::alloc::{AllocError, Global};
use std::test::Fail;

/// Two containers, of which the first shows a page of the second, and a locus in the first.
#[derive(Clone, Copy)]
struct Image {
    /// How many containers the atlas names.
    containers: u8,
    /// How many regions of the second the atlas counts that the first shows, and the other way round.
    count: u8,
    count_back: u8,
    /// What the second container shows: nothing for 0.
    shows: u8,
    /// The blocks of the first page of each container.
    first: u32,
    second: u32,
    /// The block of the locus's blob.
    blob: u32,
    host: u8,
    /// Whom the locus's capability names.
    cap: u8,
    /// Whether the locus walks at a load, or at another instruction.
    load: bool,
}

const GOOD: Image = Image {
    containers: 2,
    count: 1,
    count_back: 0,
    shows: 0,
    first: 2565,
    second: 2599,
    blob: 2570,
    host: 1,
    cap: 41,
    load: true,
};

/// A record whose blob is in one block.
fn record(number: u8, block: u32) -> Rec {
    let mut blocks = [0; 8];
    blocks[0] = block;
    Rec {
        entity: Entity::new(number).unwrap_or(Entity::ATLAS),
        version: 1,
        stamp: [0; 64],
        length: 1024,
        blocks,
    }
}

fn atlas_of(image: &Image) -> Atlas {
    let mut atlas = Atlas::new();
    for _ in 0..image.containers {
        let _ = atlas.birth(None, Kind::Container);
    }
    let _ = atlas.birth(None, Kind::Locus);
    atlas.set_count(Entity::of(1), Entity::of(2), image.count);
    atlas.set_count(Entity::of(2), Entity::of(1), image.count_back);
    atlas
}

/// A container of two pages that shows one page of this one, or nothing for 0.
fn container_of(block: u32, shows: u8) -> ContainerBlob {
    let mut blocks = [0; 256];
    blocks[0] = block;
    let mut head = Head::new(2, 7, 0, None, &[]);
    if let Some(target) = Entity::new(shows) {
        if shows > 0 {
            let region = Region {
                at: 0,
                count: 1,
                target,
                from: 0,
                rights: Rights(1),
            };
            let _ = head.regions.add(region);
        }
    }
    ContainerBlob { head, blocks }
}

fn locus_of(image: &Image) -> Locus {
    let code = if image.load {
        Instr::Load(0, 1)
    } else {
        Instr::Add(0, 1)
    };
    let host = Entity::new(image.host).unwrap_or(Entity::ATLAS);
    let mut locus = Locus::new(host, 0, 0, &[code]);
    locus.walk = Some(Walk {
        at: Entity::of(2),
        address: 0,
        hops: 1,
    });
    let _ = locus.caps.put(Cap {
        entity: Entity::new(image.cap).unwrap_or(Entity::ATLAS),
        rights: Rights(1),
    });
    locus
}

fn put(entities: &mut [Option<ChosenEntity>], number: u8, block: u32, part: ChosenPart) {
    if let Some(place) = entities.get_mut(number as usize) {
        *place = Some(ChosenEntity {
            rec: record(number, block),
            part,
        });
    }
}

fn entities_of(alloc: Global, image: &Image) -> Result<Vec<Option<ChosenEntity>>, AllocError> {
    let mut all = Vec::new(alloc);
    for _ in 0..MOST_ENTITIES {
        all.push(None)?;
    }
    put(&mut all, 0, 2566, ChosenPart::Atlas(atlas_of(image)));
    let first = container_of(image.first, 2);
    put(&mut all, 1, 2567, ChosenPart::Container(first));
    let second = container_of(image.second, image.shows);
    put(&mut all, 2, 2568, ChosenPart::Container(second));
    put(&mut all, 41, image.blob, ChosenPart::Locus(locus_of(image)));
    Ok(all)
}

/// The number of the first that doesn't fit, in an image of 2,600 blocks.
fn unfit_in(alloc: Global, all: &[Option<ChosenEntity>]) -> Result<Option<u8>, Fail> {
    if all.len() != MOST_ENTITIES as usize {
        return Err(Fail::from("64 places"));
    }
    match first_unfit(alloc, 2600, all)? {
        Some(entity) => Ok(Some(entity.number())),
        None => Ok(None),
    }
}

fn unfit(alloc: Global, image: &Image) -> Result<Option<u8>, Fail> {
    let all = entities_of(alloc, image)?;
    unfit_in(alloc, &all)
}

/// Images, and the first entity that does not fit.
const IMAGES: &[(Image, Option<u8>)] = &[
    (GOOD, None),
    // a container that the atlas doesn't name, which a region, a walk and the chosen record name
    (
        Image {
            containers: 1,
            ..GOOD
        },
        Some(1),
    ),
    // one that it names and that isn't chosen
    (
        Image {
            containers: 3,
            ..GOOD
        },
        Some(0),
    ),
    (Image { count: 0, ..GOOD }, Some(0)),
    (Image { count: 2, ..GOOD }, Some(0)),
    (
        Image {
            count_back: 1,
            ..GOOD
        },
        Some(0),
    ),
    // a circle, and a container that shows itself
    (
        Image {
            count_back: 1,
            shows: 1,
            ..GOOD
        },
        Some(0),
    ),
    (Image { shows: 2, ..GOOD }, Some(0)),
    // blocks: before the pool, behind the image, named twice, and in a blob; no block is good twice
    (
        Image {
            first: 2564,
            ..GOOD
        },
        Some(1),
    ),
    (
        Image {
            second: 2600,
            ..GOOD
        },
        Some(2),
    ),
    (
        Image {
            second: 2565,
            ..GOOD
        },
        Some(1),
    ),
    (Image { blob: 2599, ..GOOD }, Some(2)),
    (
        Image {
            second: 2568,
            ..GOOD
        },
        Some(2),
    ),
    (
        Image {
            first: 0,
            second: 0,
            ..GOOD
        },
        None,
    ),
    // blobs may share a block
    (Image { blob: 2568, ..GOOD }, None),
    (Image { host: 3, ..GOOD }, Some(41)),
    (Image { host: 41, ..GOOD }, Some(41)),
    (Image { cap: 42, ..GOOD }, Some(41)),
    (Image { cap: 0, ..GOOD }, None),
    (
        Image {
            load: false,
            ..GOOD
        },
        Some(41),
    ),
];

#[test]
fn entities_that_fit_are_told_from_others(rt: HostRuntime) -> Result<(), Fail> {
    for (row, (image, first)) in IMAGES.iter().enumerate() {
        assert!(rt; unfit(rt.alloc(), image)? == *first, "row {row}");
    }
    Ok(())
}

#[test]
fn without_an_atlas_nothing_fits(rt: HostRuntime) -> Result<(), Fail> {
    let mut all = entities_of(rt.alloc(), &GOOD)?;
    if let Some(place) = all.get_mut(0) {
        *place = None;
    }
    assert!(rt; unfit_in(rt.alloc(), &all)? == Some(1));
    for place in all.iter_mut() {
        *place = None;
    }
    assert!(rt; unfit_in(rt.alloc(), &all)? == None);
    Ok(())
}

#[test]
fn single_calls_answer(rt: HostRuntime) {
    let atlas = atlas_of(&GOOD);
    assert!(rt; is_born(&atlas, Entity::ATLAS) && is_born(&atlas, Entity::of(41)));
    assert!(rt; !is_born(&atlas, Entity::of(3)) && !is_born(&atlas, Entity::of(42)));
    assert!(rt; is_born_container(&atlas, Entity::of(2)));
    assert!(rt; !is_born_container(&atlas, Entity::ATLAS));
    assert!(rt; has_no_circle(&atlas));
    assert!(rt; ties_container(&atlas, &container_of(0, 2).head));
    assert!(rt; !ties_container(&atlas, &container_of(0, 41).head));
    let locus = locus_of(&GOOD);
    assert!(rt; are_born(&atlas, &locus.caps) && ties_locus(&atlas, &locus));
    let circle = atlas_of(&Image {
        count_back: 1,
        ..GOOD
    });
    assert!(rt; !has_no_circle(&circle));
}
