// The kernel's locus or container from the plain kernel's. Whether it is the same is seen afterwards.
use act_alone::{Chain, Code, Head, Locus, Privates};
use base_types::{Call, Cap, Entity, Instr, MOST_CALLS, Private, Region, Rights};
use data_capabilities::{CapList, SLOTS};
use data_regions::RegionMap;
use plain_states::{PlainContainer, PlainLocus};

fn code_from(code: &[Instr]) -> Option<Code> {
    if code.len() > 128 {
        return None;
    }
    Some(Code::new(code))
}

fn chain_from(calls: &[Call]) -> Option<Chain> {
    let mut chain = Chain::new();
    for call in calls {
        if chain.as_slice().len() >= MOST_CALLS {
            return None;
        }
        chain.push(*call);
    }
    Some(chain)
}

fn privates_from(items: &[Private]) -> Option<Privates> {
    let mut list = Privates::new();
    for item in items {
        if list.as_slice().len() >= 16 {
            return None;
        }
        list.add(*item);
    }
    Some(list)
}

fn caps_from(slots: &[Option<Cap>]) -> CapList {
    let mut list = CapList::new();
    for (slot, held) in slots.iter().enumerate() {
        if slot < SLOTS {
            list.set(slot as u8, *held);
        }
    }
    list
}

fn regions_from(regions: &[Region]) -> Option<RegionMap<16>> {
    let mut map = RegionMap::new();
    for region in regions {
        let count = region.count as u32;
        if count == 0 || region.at as u32 + count > 256 || region.from as u32 + count > 256 {
            return None;
        }
        let _added = map.add(*region);
    }
    Some(map)
}

/// The kernel's locus of the plain one.
pub fn locus_from(plain: &PlainLocus) -> Option<Locus> {
    Some(Locus {
        registers: plain.registers,
        place: plain.place,
        code: code_from(&plain.code)?,
        host: plain.host,
        chain: chain_from(&plain.chain)?,
        privates: privates_from(&plain.privates)?,
        caps: caps_from(&plain.caps),
        walk: plain.walk,
        condition: plain.condition,
        every: plain.every,
        printed: plain.printed,
    })
}

/// The kernel's head of the plain container.
pub fn head_from(plain: &PlainContainer) -> Option<Head> {
    Some(Head {
        pages: plain.pages,
        tag: plain.tag,
        every: plain.every,
        entry: plain.entry,
        code: code_from(&plain.code)?,
        regions: regions_from(&plain.regions)?,
        caps: caps_from(&plain.caps),
    })
}
