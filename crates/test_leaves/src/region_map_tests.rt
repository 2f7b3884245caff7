ghost use Rattle.std.specs.Prelude.{◌≡◌};

use base_types::{Entity, Region, Reply, Rights};
use data_regions::RegionMap;

fn region(at: u8, count: u16) -> Region
    ensures at { result.at ≡ at }
    ensures count { result.count ≡ count }
    ensures from { result.from ≡ 0 }
{
    Region {
        at,
        count,
        target: Entity::ATLAS,
        from: 0,
        rights: Rights(3),
    }
}

#[test]
fn a_region_bars_the_pages_that_it_covers_and_no_others(rt: HostRuntime) {
    let mut map = RegionMap::<2>::new();
    assert!(rt; map.add(region(4, 2)) == Ok(()));
    assert!(rt; map.add(region(5, 2)) == Err(Reply::Overlap));
    assert!(rt; map.covering(3) == None);
    assert!(rt; map.covering(5) == Some(region(4, 2)));
    assert!(rt; map.covering(6) == None);
    assert!(rt; map.remove(5) == Err(Reply::NoRegion));
    assert!(rt; map.add(region(3, 1)) == Ok(()));
    assert!(rt; map.add(region(3, 2)) == Err(Reply::Overlap));
    assert!(rt; map.add(region(6, 250)) == Err(Reply::ListFull));
    assert!(rt; map.covering(3) == Some(region(3, 1)));
    assert!(rt; map.get(1) == Some(region(4, 2)));
    assert!(rt; map.get(2) == None);
    assert!(rt; map.as_slice() == [region(3, 1), region(4, 2)].as_slice());
    assert!(rt; map.remove(4) == Ok(region(4, 2)));
    assert!(rt; map.add(region(4, 252)) == Ok(()));
    assert!(rt; map.covering(255) == Some(region(4, 252)));
    assert!(rt; map.covering(u64::MAX) == None);
}
